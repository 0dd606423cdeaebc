use mt_base::{Call, Shortage};

/// A call's reply in a transcript: the reply as it is printed. If it begins as a refusal because nodes are short, it is the
/// refusal, with a holder if nodes were held.
#[derive(Clone, Copy)]
pub enum Heard<'t> {
    Reply(&'t [u8]),
    Short(Shortage),
}

/// A call of a tree in a transcript: its lane, what the log asked for, and its reply.
#[derive(Clone, Copy)]
pub struct Noted<'t> {
    pub lane: u32,
    pub call: Call,
    pub heard: Heard<'t>,
}
