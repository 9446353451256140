//! Laws about what trees match. Each function does nothing: its clauses are laws.
ghost use Rattle.std.specs.Prelude.{◌≡◌, ◌≢◌, ◌↔◌, ℕ, ◌≤◌, Bool, List, Some, slice_get, true};
ghost use Rattle.regex_class.specs.Ranges.{Range, in_ranges};
ghost use Rattle.fancy_grammar.specs.Label.{Row, Wrap};
ghost use Rattle.fancy_grammar.specs.ReadAs.{unpositioned};
ghost use Rattle.fancy_grammar.specs.Tree.{Tree, Trees, alt, concat, empty, list_of, look_around, over, repeat, row, with_tree};
ghost use Rattle.fancy_grammar.specs.declared.kinds.LookAround.TheVariants.{LookAhead, LookAheadNeg};
ghost use Rattle.pattern_matches.specs.Beginnings.{BeginsWithin, CoversStarts};
ghost use Rattle.pattern_matches.specs.EngineTurns.{EngineTurns};
ghost use Rattle.pattern_matches.specs.Lengths.{HasAtLeast, HasAtMost, max_length, min_length};
ghost use Rattle.pattern_matches.specs.Matches.{Assertions, IsOneOf, Matches};
ghost use Rattle.pattern_matches.specs.Parts.{Position, text_of};
ghost use Rattle.pattern_matches.specs.SameMatches.{Covers, SameMatches, without};

/// The two positions of a part are in the same text.
pub fn parts()
    ensures same_text { (unicode : Bool) (holds : Assertions) (t : Tree) (p q : Position) →
        Matches unicode holds t p q → text_of p ≡ text_of q }
{}

/// A tree may be replaced by one with the same matches, and positions in nodes do not matter.
pub fn replaced()
    ensures child { (unicode : Bool) (w : Wrap) (t u : Tree) → SameMatches unicode t u →
        SameMatches unicode (over w t) (over w u) }
    ensures children { (unicode : Bool) (r : Row) (ts : Trees) (i : ℕ) (t u : Tree) →
        slice_get (list_of ts) i ≡ Some t → SameMatches unicode t u →
        SameMatches unicode (row r ts) (row r (with_tree ts i u)) }
    ensures positions { (unicode : Bool) (t u : Tree) → unpositioned t ≡ unpositioned u → SameMatches unicode t u }
{}

/// A repeat of exactly one turn matches what its operand does, and one of no turn the empty parts. It makes no difference
/// to the set whether a repeat is greedy or lazy, and whether an engine takes empty turns after the least number of turns.
pub fn repeats()
    ensures once { (unicode : Bool) (t : Tree) (greedy : Bool) → SameMatches unicode (repeat t 1 1 greedy) t }
    ensures never { (unicode : Bool) (t : Tree) (greedy : Bool) → SameMatches unicode (repeat t 0 0 greedy) empty }
    ensures greed { (unicode : Bool) (t : Tree) (lo hi : ℕ) (greedy other : Bool) →
        SameMatches unicode (repeat t lo hi greedy) (repeat t lo hi other) }
    ensures engine { (unicode : Bool) (holds : Assertions) (t : Tree) (lo hi : ℕ) (greedy : Bool) (p q : Position) →
        Matches unicode holds (repeat t lo hi greedy) p q ↔ EngineTurns (Matches unicode holds t) lo hi p q }
{}

/// A node of one character matches what another one does if it has all of its characters.
pub fn characters()
    ensures covered { (unicode : Bool) (t u : Tree) (xs ys : List Range) → IsOneOf unicode t xs → IsOneOf unicode u ys →
        ((c : ℕ) → in_ranges xs c ≡ true → in_ranges ys c ≡ true) → Covers unicode u t }
{}

/// A branch may be left out if another one is equal to it, or has all of its matches.
pub fn branches()
    ensures equal { (unicode : Bool) (ts : Trees) (i j : ℕ) (t : Tree) → i ≢ j → slice_get (list_of ts) i ≡ Some t →
        slice_get (list_of ts) j ≡ Some t → SameMatches unicode (alt ts) (alt (without ts j)) }
    ensures covered { (unicode : Bool) (ts : Trees) (i j : ℕ) (t u : Tree) → i ≢ j → slice_get (list_of ts) i ≡ Some t →
        slice_get (list_of ts) j ≡ Some u → Covers unicode t u → SameMatches unicode (alt ts) (alt (without ts j)) }
{}

/// In a look-ahead a branch may be left out if another one matches from each position from which it does, for example
/// because its pieces begin with what those of the other one match. Elsewhere an alternation without the branch matches
/// from the same positions.
pub fn beginnings()
    ensures pieces { (unicode : Bool) (us ts : Trees) → BeginsWithin unicode us ts →
        CoversStarts unicode (concat ts) (concat us) }
    ensures fewer_turns { (unicode : Bool) (t u : Tree) (lo hi least most : ℕ) (greedy other : Bool) → Covers unicode t u →
        least ≤ lo → least ≤ most → CoversStarts unicode (repeat t least most greedy) (repeat u lo hi other) }
    ensures same_turns { (unicode : Bool) (t u : Tree) (lo hi : ℕ) (greedy other : Bool) → Covers unicode t u →
        Covers unicode (repeat t lo hi greedy) (repeat u lo hi other) }
    ensures starts { (unicode : Bool) (ts : Trees) (i j : ℕ) (t u : Tree) → i ≢ j → slice_get (list_of ts) i ≡ Some t →
        slice_get (list_of ts) j ≡ Some u → CoversStarts unicode t u → CoversStarts unicode (alt (without ts j)) (alt ts) }
    ensures look_ahead { (unicode : Bool) (ts : Trees) (i j : ℕ) (t u : Tree) → i ≢ j →
        slice_get (list_of ts) i ≡ Some t → slice_get (list_of ts) j ≡ Some u → CoversStarts unicode t u →
        SameMatches unicode (look_around (alt ts) LookAhead) (look_around (alt (without ts j)) LookAhead) }
    ensures look_ahead_neg { (unicode : Bool) (ts : Trees) (i j : ℕ) (t u : Tree) → i ≢ j →
        slice_get (list_of ts) i ≡ Some t → slice_get (list_of ts) j ≡ Some u → CoversStarts unicode t u →
        SameMatches unicode (look_around (alt ts) LookAheadNeg) (look_around (alt (without ts j)) LookAheadNeg) }
{}

/// A part that a tree matches has at least `min_length` characters, and at most `max_length`, if that is a number.
pub fn lengths()
    ensures least { (unicode : Bool) (holds : Assertions) (t : Tree) (p q : Position) → Matches unicode holds t p q →
        HasAtLeast (min_length t) p q }
    ensures greatest { (unicode : Bool) (holds : Assertions) (t : Tree) (n : ℕ) (p q : Position) →
        max_length t ≡ Some n → Matches unicode holds t p q → HasAtMost n p q }
{}
