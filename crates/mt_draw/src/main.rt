//! Draws the image of a tree, which it reads from its input: each node as a box, or where there are many as a map of levels.
//! `--text` prints the nodes as the kernel's `mt_dump` does, and `--ranges` draws the ranges along a line.
#![tactic(auto)]

ghost use Rattle.std.specs.Prelude.{◌≡◌, Err, IfOk, string_bytes};
ghost use Rattle.mt_image.specs.Reading.{image_in};
ghost use Rattle.mt_image.specs.declared.errors.ImageError.{ImageError};
ghost use Rattle.mt_draw.specs.Drawn.{IsPicture, IsTreeIn};
ghost use Rattle.mt_draw.specs.Texts.{tree_text};

mod blocks;
mod boxes;
mod failures;
mod forms;
mod layouts;
mod levels;
mod shapes;
mod texts;
mod trees;

use crate::blocks::AddressMap;
use crate::boxes::Boxes;
use crate::failures::DrawFailure;
use crate::forms::{HELP, PictureForm, form_of};
use crate::layouts::PictureLayout;
use crate::levels::Levels;
use crate::texts::Dump;
use crate::trees::DrawnTree;
use mt_image::read_image;
use std::alloc::{AllocError, Global};
use std::io::{ErrorKind, Read, Write};
use std::process::ExitCode;
use std::rt::Env;
use std::{env, io};

/// A tree with more nodes is drawn as a map of its levels.
const MOST_BOXES: usize = 200;

/// The greatest number of bytes of an image: 65,504 narrow nodes after its head.
const LONGEST: u64 = 33_538_080;

/// What fails, where that is not for lack of memory.
fn unless_memory(error: &io::Error, other: DrawFailure) -> DrawFailure {
    match error.kind() {
        ErrorKind::OutOfMemory => DrawFailure::NoMemory,
        _ => other,
    }
}

/// The words after the program's name. Where one is no text, they ask for nothing.
fn words_of(rt: &(impl Env + AllocGlobal)) -> Result<Vec<String>, DrawFailure> {
    let words = env::args(rt).map_err(|error| unless_memory(&error, DrawFailure::Usage))?;
    words
        .skip(1)
        .collect(rt.alloc())
        .map_err(|_| DrawFailure::NoMemory)
}

/// The bytes of the input. If it is longer than any image, only enough of them to show that.
fn read_input(rt: &(impl Input + AllocGlobal)) -> Result<Vec<u8>, DrawFailure> {
    let mut bytes = Vec::new(rt.alloc());
    match rt.reader().take(LONGEST + 1).read_to_end(&mut bytes) {
        Ok(_) => Ok(bytes),
        Err(error) => Err(unless_memory(&error, DrawFailure::ReadFault)),
    }
}

/// A tree as the picture of its nodes: each as a box where there are few.
fn picture(alloc: Global, tree: &DrawnTree) -> Result<String, AllocError> {
    if tree.nodes.len() <= MOST_BOXES {
        let layout = PictureLayout::of(alloc, tree)?;
        let boxes = Boxes {
            tree,
            layout: &layout,
        };
        format!(in alloc; "{boxes}")
    } else {
        let levels = Levels::of(alloc, tree)?;
        format!(in alloc; "{levels}")
    }
}

/// The tree whose image these bytes are.
fn read_tree(alloc: Global, bytes: &[u8]) -> Result<DrawnTree, DrawFailure>
    ensures tree { IfOk result (λ tree. IsTreeIn bytes.now tree) }
    ensures no_image { (error : ImageError) → result ≡ Err (DrawFailure.NoImage error) → image_in bytes.now ≡ Err error }
{
    let (kind, rows) = read_image(alloc, bytes)?;
    Ok(DrawnTree::of(alloc, kind, rows)?)
}

/// What is written of a tree.
fn text_of(alloc: Global, form: PictureForm, tree: &DrawnTree) -> Result<String, AllocError>
    ensures { form ≡ PictureForm.Text → IfOk result (λ text. string_bytes text ≡ tree_text tree.now) }
{
    match form {
        PictureForm::Help => String::from_str(alloc, HELP),
        PictureForm::Rows => picture(alloc, tree),
        PictureForm::Text => {
            let dump = Dump { tree };
            format!(in alloc; "{dump}")
        }
        PictureForm::Ranges => {
            let map = AddressMap::of(alloc, tree)?;
            format!(in alloc; "{map}")
        }
    }
}

/// What is written of the tree whose image these bytes are.
fn drawn(alloc: Global, form: PictureForm, bytes: &[u8]) -> Result<String, DrawFailure>
    ensures drawn { IfOk result (λ text. IsPicture form bytes.now (string_bytes text)) }
    ensures no_image { (error : ImageError) → result ≡ Err (DrawFailure.NoImage error) → image_in bytes.now ≡ Err error }
{
    let tree = read_tree(alloc, bytes)?;
    Ok(text_of(alloc, form, &tree)?)
}

/// Does what the words say.
fn run(rt: &(impl Env + Input + Print + AllocGlobal)) -> Result<(), DrawFailure> {
    let words = words_of(rt)?;
    let form = form_of(&words).ok_or(DrawFailure::Usage)?;
    let text = match form {
        PictureForm::Help => String::from_str(rt.alloc(), HELP)?,
        _ => drawn(rt.alloc(), form, &read_input(rt)?)?,
    };
    match io::writer(rt).write_all(text.as_str().as_bytes()) {
        Ok(()) => Ok(()),
        Err(_) => Err(DrawFailure::WriteFault),
    }
}

fn main(rt: HostRuntime) -> io::Result<ExitCode> {
    match run(&rt) {
        Ok(()) => Ok(ExitCode::from(0)),
        Err(failure) => {
            eprintln!(rt; "mt_draw: {failure}")?;
            Ok(ExitCode::from(failure.status()))
        }
    }
}
