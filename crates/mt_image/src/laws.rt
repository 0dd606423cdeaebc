//! What holds of nodes in the order of a walk, and of images. Each law is the contract of a function that does nothing.

ghost use Rattle.std.specs.Prelude.{◌≡◌, ℕ, ◌+◌, ◌^◌, ◌≤◌, ◌<◌, ◌++◌, List, None, Ok, length, map};
ghost use Rattle.std.specs.List.{AllByRecursion, flat_map, range_with_len};
ghost use Rattle.std.specs.Int.{w64, to_le_bytes};
ghost use Rattle.mt_base.specs.declared.kinds.Kind.{Kind};
ghost use Rattle.mt_base.specs.declared.ranges.Range.{Range};
ghost use Rattle.mt_layout.specs.Rows.{row_in};
ghost use Rattle.mt_check.specs.Check.{checked};
ghost use Rattle.mt_check.specs.declared.faults.Form.{Form};
ghost use Rattle.mt_rows.specs.Publish.{map_by, tree_as, IsLawfulOf};
ghost use Rattle.mt_rows.specs.Sheet.{Rooted};
ghost use Rattle.mt_image.specs.Bytes.{image_of};
ghost use Rattle.mt_dup.specs.Walks.{AreNumbered};
ghost use Rattle.mt_dup.specs.Copy.{IsCopy};
ghost use Rattle.mt_image.specs.Images.{IsImageOf, IsImageOfMap, IsOrderedCopy};
ghost use Rattle.mt_image.specs.Reading.{AreBytes, Image, image_in, numbers_from};
ghost use Rattle.mt_image.specs.Orders.{AreRowsInOrder, IsGood, stray_in};

/// The nodes of a well-formed tree are in the order of the walk exactly if none is stray.
#[tactic(auto, using(crate::proofs::WalkOrder::not_stray, crate::proofs::WalkOrder::in_order))]
pub fn rows_in_order_have_no_stray()
    ensures none { (t : Rooted) → AreRowsInOrder t → stray_in t ≡ None }
    ensures order { (kind : Kind) (t : Rooted) → IsLawfulOf t kind → stray_in t ≡ None → AreRowsInOrder t }
{}

/// A shape of a tree has one image: copies of each other whose nodes are in the order of the walk have the same.
#[tactic(auto, using(crate::proofs::OneImage::one_image))]
pub fn a_shape_has_one_image()
    ensures { (kind : Kind) (t t' : Rooted) → IsGood kind t → IsGood kind t' → IsCopy t t' → image_of kind t' ≡ image_of kind t }
{}

/// Numbers that are written as bytes are read back.
#[tactic(auto, using(crate::proofs::Numbers::numbers_read))]
pub fn numbers_are_read_back()
    ensures { (ns front back : List ℕ) → AllByRecursion (λ n. n < 2 ^ 64) ns
        → numbers_from (front ++ (flat_map (to_le_bytes w64) ns ++ back)) (length front) (length ns) ≡ ns }
{}

/// The image of a tree is one of its map.
#[tactic(auto, using(crate::proofs::ReadBack::image_of_map))]
pub fn an_image_of_a_tree_is_one_of_its_map()
    ensures { (kind : Kind) (t : Rooted) (bytes : List ℕ) → IsImageOf kind t bytes → IsImageOfMap kind (map_by t) bytes }
{}

/// The image of a tree whose nodes are in the order of the walk reads back as that tree. The image of any other tree reads back
/// as a copy of it, and the image of a map as a tree of this map. Whatever is read is such a tree, and is written as the same
/// bytes.
pub fn an_image_is_read_back()
    ensures read { (kind : Kind) (t : Rooted) → IsGood kind t → image_in (image_of kind t) ≡ Ok (record { kind = kind; tree = t }) }
    ensures copied { (kind : Kind) (t : Rooted) (bytes : List ℕ) → IsImageOf kind t bytes
        → (t' : Rooted) × IsOrderedCopy kind t t' × (image_in bytes ≡ Ok (record { kind = kind; tree = t' })) }
    ensures mapped { (kind : Kind) (m : List Range) (bytes : List ℕ) → IsImageOfMap kind m bytes
        → (t : Rooted) × (image_in bytes ≡ Ok (record { kind = kind; tree = t })) × (map_by t ≡ m) }
    ensures good { (bytes : List ℕ) (x : Image) → AreBytes bytes → image_in bytes ≡ Ok x → IsGood x.kind x.tree }
    ensures written { (bytes : List ℕ) (x : Image) → AreBytes bytes → image_in bytes ≡ Ok x → image_of x.kind x.tree ≡ bytes }
{}
