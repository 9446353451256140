//! Writing into a string that has enough capacity, which cannot fail.
ghost use Rattle.std.specs.Prelude.{◌∷◌, [], chars};
ghost use Rattle.fancy_syntax.specs.Capacity.{HasCapacity, Appended};

/// Appends a character. The string must have the capacity for it.
#[inline]
pub fn put(buf: &mut String, c: char)
    requires { HasCapacity buf.old (c ∷ []) }
    ensures { Appended buf.old buf.new (c ∷ []) }
{
    buf.push(c).unwrap();
}

/// Appends a text.
#[inline]
pub fn put_text(buf: &mut String, text: &str)
    requires { HasCapacity buf.old (chars text.now) }
    ensures { Appended buf.old buf.new (chars text.now) }
{
    buf.push_str(text).unwrap();
}
