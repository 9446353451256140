//! Lists of pieces, one of which may be a star, and what they match.
ghost use Rattle.std.specs.Prelude.{◌↔◌, ◌≤◌, IsTrue, MatchOption, IfSome, length};
ghost use Rattle.patterns_config.specs.Wild.{Wild, Strips, Ends, AfterStar};

/// A piece of a pattern: a star, which matches any number of items, or one that matches some items.
pub(crate) trait Piece {
    type Item;

    ghost star: { Self → Type 0 };

    ghost accepted: { Self → Self.Item → Type 0 };

    /// Whether it matches any number of items.
    fn is_star(&self) -> bool
        ensures { IsTrue result ↔ star self.now };

    /// Whether it accepts the item, if it is no star.
    fn accepts(&self, item: &Self::Item) -> bool
        ensures { IsTrue result ↔ accepted self.now item.now };
}

/// Strips pieces that match one item each, up to a star or to the last piece, with their items.
fn strip<'a, P: Piece>(pieces: &'a [P], items: &'a [P::Item]) -> Option<(&'a [P], &'a [P::Item])>
    ensures cases { MatchOption result (¬ Wild P.star P.accepted pieces.now items.now) (λ r. Strips P.star P.accepted pieces.now items.now r.0.now r.1.now) }
    ensures ends { IfSome result (λ r. Ends P.star r.0.now) }
    ensures shorter { IfSome result (λ r. length r.0.now ≤ length pieces.now) }
{
    let mut left = pieces;
    let mut rest = items;
    while let Some((piece, after)) = left.split_first() {
        if piece.is_star() {
            break;
        }
        let Some((item, others)) = rest.split_first() else {
            return None;
        };
        if !piece.accepts(item) {
            return None;
        }
        left = after;
        rest = others;
    }
    Some((left, rest))
}

/// Finds the first of the items from which the pieces match up to a star or to the end. Returns what is left then.
fn find<'a, P: Piece>(pieces: &'a [P], items: &'a [P::Item]) -> Option<(&'a [P], &'a [P::Item])>
    ensures cases { MatchOption result (¬ AfterStar P.star P.accepted pieces.now items.now) (λ r. AfterStar P.star P.accepted pieces.now items.now ↔ Wild P.star P.accepted r.0.now r.1.now) }
    ensures ends { IfSome result (λ r. Ends P.star r.0.now) }
    ensures shorter { IfSome result (λ r. length r.0.now ≤ length pieces.now) }
{
    let mut rest = items;
    loop {
        if let Some((left, others)) = strip(pieces, rest) {
            if !left.is_empty() || others.is_empty() {
                return Some((left, others));
            }
        }
        let Some((_, others)) = rest.split_first() else {
            return None;
        };
        rest = others;
    }
}

/// Whether the pieces match the items. The work is at most the product of their lengths.
pub(crate) fn matches<P: Piece>(pieces: &[P], items: &[P::Item]) -> bool
    ensures { IsTrue result ↔ Wild P.star P.accepted pieces.now items.now }
{
    let Some((mut left, mut rest)) = strip(pieces, items) else {
        return false;
    };
    while let Some((_, after)) = left.split_first() {
        let Some((pieces, items)) = find(after, rest) else {
            return false;
        };
        left = pieces;
        rest = items;
    }
    rest.is_empty()
}
