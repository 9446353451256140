//! Values that hold children of a type, each in a `Box` or all in one `Vec`. The function at the end is proved for any
//! two types, and so for a type whose children are of that type again.
ghost use Rattle.std.specs.Prelude.{◌≡◌, ℕ, Bool, false, true, Option, Some, option_map, slice_get};
ghost use Rattle.std.specs.Borrow.{sem};
ghost use Rattle.fancy_syntax.specs.Loans.{LendsChildAt, LendsBoxAt, LendsListAt};

/// A value with children, which it holds in one of two ways.
pub(super) trait Parent {
    type Child;

    // the view of a value and of a child
    ghost Seen: { Type 0 };

    ghost show: { Self → Seen };

    ghost see: { Self.Child → Seen };

    ghost child_at: { Seen → ℕ → Option Seen };

    // a value with its child at a number set
    ghost with_child: { Seen → ℕ → Seen → Seen };

    // whether the children are a list
    ghost holds_list: { Seen → Bool };

    /// Whether the children are a list.
    fn has_list(&self) -> bool
        ensures { result ≡ holds_list (show self.now) };

    /// The list of children.
    fn list_mut(&mut self) -> Option<&mut Vec<Self::Child>>
        requires { holds_list (show self.old) ≡ true }
        ensures* writes_back { sem 𝓛 (LendsListAt Self.row Self.Child.row Seen show see with_child self.entry result) }
        ensures value { (i : ℕ) → option_map (λ v. option_map see (slice_get v.now.items i)) result ≡
            Some (child_at (show self.old) i) };

    /// The box of child i, if there is one.
    fn box_mut(&mut self, i: usize) -> Option<&mut Box<Self::Child>>
        requires { holds_list (show self.old) ≡ false }
        ensures* writes_back { sem 𝓛 (LendsBoxAt Self.row Self.Child.row Seen show see with_child self.entry i result) }
        ensures value { option_map (λ b. see b.now.value) result ≡ child_at (show self.old) i };
}

/// The child i, if there is one, borrowed for reading and writing.
pub(super) fn lend_child<P: Parent>(parent: &mut P, i: usize) -> Option<&mut P::Child>
    ensures* writes_back { sem 𝓛
        (LendsChildAt P.row P.Child.row P.Seen P.show P.see P.with_child parent.entry i result) }
    ensures value { option_map (λ child. P.see child.now) result ≡ P.child_at (P.show parent.old) i }
{
    if parent.has_list() {
        match parent.list_mut() {
            Some(list) => list.get_mut(i),
            None => None,
        }
    } else {
        match parent.box_mut(i) {
            Some(child) => Some(child),
            None => None,
        }
    }
}
