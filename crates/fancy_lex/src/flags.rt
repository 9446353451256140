//! The flags under which a pattern is parsed, as bits of a `u32`: combine them with `|`. 0 is no flag, and other bits
//! are ignored. The letters are those of flag groups, such as `(?i)`.
ghost use Rattle.std.specs.Prelude.{◌≡◌, ◌≢◌, if◌then◌else◌, MatchOption};
ghost use Rattle.fancy_lex.specs.Bits.{has_bit};
ghost use Rattle.fancy_lex.specs.Flag as spec;
ghost use Rattle.fancy_lex.specs.Flags.{bits_of, flags_of};

/// Case-insensitive (`i`): literals that are not escaped, hexadecimal escapes that are characters, classes, properties,
/// `\d`, `\D`, `\s`, `\S`, `\w`, `\W` and back references have `casei`.
pub const FLAG_CASEI: u32 = 1;
/// Multi-line (`m`): `^` and `$` match at the start and the end of each line, as `StartLine` and `EndLine`.
pub const FLAG_MULTI: u32 = 2;
/// `.` matches a line feed too (`s`): it is an `Any` with `newline`.
pub const FLAG_DOTNL: u32 = 4;
/// Quantifiers are lazy without `?`, and greedy with it (`U`).
pub const FLAG_SWAP_GREED: u32 = 8;
/// Verbose (`x`): space, TAB, CR and LF are ignored outside classes, and `#` through the end of the line: `a b # c` is
/// parsed as `ab`.
pub const FLAG_IGNORE_SPACE: u32 = 16;
/// Unicode: `\x80` is the character U+0080, and a byte without the flag; properties are rewritten as Unicode's. A
/// pattern cannot change it. `parse_tree` parses under this flag only.
pub const FLAG_UNICODE: u32 = 32;
/// CR is a line terminator too, and CR LF a single one (`R`): `.`, `\Z`, and under `FLAG_MULTI` `^` and `$`,
/// have `crlf`.
pub const FLAG_CRLF: u32 = 64;
/// The pattern is in Oniguruma's syntax: quantifiers can follow one another, as in `a{3}{2}`, `x{3,0}` repeats 0 to 3
/// times, and `\<` and `\>` are literals.
pub const FLAG_ONIGURUMA_MODE: u32 = 128;
/// If some group has a name, groups without a name have no number: in `(a)(?<n>b)` the group `n` has number 1, and the
/// tree has no `Group` for `(a)`.
pub const FLAG_IGNORE_NUMBERED_GROUPS_WHEN_NAMED_GROUPS_EXIST: u32 = 256;

// Callers pass the flags as these numbers, and the definition `flags_of` has the same numbers.
const _: () = prove!(FLAG_CASEI == 1 && FLAG_MULTI == 2 && FLAG_DOTNL == 4);

const _: () = prove!(FLAG_SWAP_GREED == 8 && FLAG_IGNORE_SPACE == 16 && FLAG_UNICODE == 32);

const _: () = prove!(FLAG_CRLF == 64 && FLAG_ONIGURUMA_MODE == 128);

const _: () = prove!(FLAG_IGNORE_NUMBERED_GROUPS_WHEN_NAMED_GROUPS_EXIST == 256);

/// The flags as a set: a field for each of the nine constants, which says whether it is among them.
#[derive(Clone, Copy, PartialEq, Eq, Debug)]
pub struct Flags {
    /// `FLAG_CASEI`
    pub casei: bool,
    /// `FLAG_MULTI`
    pub multi: bool,
    /// `FLAG_DOTNL`
    pub dotnl: bool,
    /// `FLAG_SWAP_GREED`
    pub swap_greed: bool,
    /// `FLAG_IGNORE_SPACE`
    pub ignore_space: bool,
    /// `FLAG_UNICODE`
    pub unicode: bool,
    /// `FLAG_CRLF`
    pub crlf: bool,
    /// `FLAG_ONIGURUMA_MODE`
    pub oniguruma_mode: bool,
    /// `FLAG_IGNORE_NUMBERED_GROUPS_WHEN_NAMED_GROUPS_EXIST`
    pub ignore_numbered_groups: bool,
}

/// One of the flags.
#[derive(Clone, Copy, PartialEq, Eq, Debug)]
pub enum Flag {
    /// `FLAG_CASEI`
    Casei,
    /// `FLAG_MULTI`
    Multi,
    /// `FLAG_DOTNL`
    Dotnl,
    /// `FLAG_SWAP_GREED`
    SwapGreed,
    /// `FLAG_IGNORE_SPACE`
    IgnoreSpace,
    /// `FLAG_UNICODE`
    Unicode,
    /// `FLAG_CRLF`
    Crlf,
    /// `FLAG_ONIGURUMA_MODE`
    OnigurumaMode,
    /// `FLAG_IGNORE_NUMBERED_GROUPS_WHEN_NAMED_GROUPS_EXIST`
    IgnoreNumberedGroups,
}

impl Flag {
    /// The flags in the order of their bits.
    pub const ALL: [Flag; 9] = [
        Flag::Casei,
        Flag::Multi,
        Flag::Dotnl,
        Flag::SwapGreed,
        Flag::IgnoreSpace,
        Flag::Unicode,
        Flag::Crlf,
        Flag::OnigurumaMode,
        Flag::IgnoreNumberedGroups,
    ];

    /// The flag's letter. A pattern can set and clear the flags of `i`, `m`, `s`, `U`, `x` and `R` by their letters.
    #[inline]
    pub fn letter(self) -> char
        ensures { result ≡ spec.letter self }
    {
        match self {
            Flag::Casei => 'i',
            Flag::Multi => 'm',
            Flag::Dotnl => 's',
            Flag::SwapGreed => 'U',
            Flag::IgnoreSpace => 'x',
            Flag::Unicode => 'u',
            Flag::Crlf => 'R',
            Flag::OnigurumaMode => 'o',
            Flag::IgnoreNumberedGroups => 'n',
        }
    }

    /// The flag whose letter it is.
    #[inline]
    pub fn from_letter(letter: char) -> Option<Flag>
        ensures { MatchOption result ((flag : Flag) → spec.letter flag ≢ letter) (λ flag. spec.letter flag ≡ letter) }
    {
        match letter {
            'i' => Some(Flag::Casei),
            'm' => Some(Flag::Multi),
            's' => Some(Flag::Dotnl),
            'U' => Some(Flag::SwapGreed),
            'x' => Some(Flag::IgnoreSpace),
            'u' => Some(Flag::Unicode),
            'R' => Some(Flag::Crlf),
            'o' => Some(Flag::OnigurumaMode),
            'n' => Some(Flag::IgnoreNumberedGroups),
            _ => None,
        }
    }
}

impl Flags {
    /// The flags whose bits are set in `bits`; other bits are ignored.
    pub fn from_bits(bits: u32) -> Flags
        ensures { result ≡ flags_of bits }
    {
        Flags {
            casei: has(bits, FLAG_CASEI),
            multi: has(bits, FLAG_MULTI),
            dotnl: has(bits, FLAG_DOTNL),
            swap_greed: has(bits, FLAG_SWAP_GREED),
            ignore_space: has(bits, FLAG_IGNORE_SPACE),
            unicode: has(bits, FLAG_UNICODE),
            crlf: has(bits, FLAG_CRLF),
            oniguruma_mode: has(bits, FLAG_ONIGURUMA_MODE),
            ignore_numbered_groups: has(bits, FLAG_IGNORE_NUMBERED_GROUPS_WHEN_NAMED_GROUPS_EXIST),
        }
    }

    /// The bits of the flags, from which `from_bits` makes the same flags.
    pub fn to_bits(self) -> u32
        ensures sum { result ≡ bits_of self }
        ensures back { flags_of result ≡ self }
    {
        let numbered = FLAG_IGNORE_NUMBERED_GROUPS_WHEN_NAMED_GROUPS_EXIST;
        bit(self.casei, FLAG_CASEI)
            | bit(self.multi, FLAG_MULTI)
            | bit(self.dotnl, FLAG_DOTNL)
            | bit(self.swap_greed, FLAG_SWAP_GREED)
            | bit(self.ignore_space, FLAG_IGNORE_SPACE)
            | bit(self.unicode, FLAG_UNICODE)
            | bit(self.crlf, FLAG_CRLF)
            | bit(self.oniguruma_mode, FLAG_ONIGURUMA_MODE)
            | bit(self.ignore_numbered_groups, numbered)
    }

    /// Whether the flag is set.
    #[inline]
    pub fn get(self, flag: Flag) -> bool
        ensures { result ≡ spec.is_set self flag }
    {
        match flag {
            Flag::Casei => self.casei,
            Flag::Multi => self.multi,
            Flag::Dotnl => self.dotnl,
            Flag::SwapGreed => self.swap_greed,
            Flag::IgnoreSpace => self.ignore_space,
            Flag::Unicode => self.unicode,
            Flag::Crlf => self.crlf,
            Flag::OnigurumaMode => self.oniguruma_mode,
            Flag::IgnoreNumberedGroups => self.ignore_numbered_groups,
        }
    }

    /// The flags with this one set or cleared.
    #[inline]
    pub fn with(self, flag: Flag, on: bool) -> Flags
        ensures { result ≡ spec.with_flag self flag on }
    {
        let mut flags = self;
        match flag {
            Flag::Casei => flags.casei = on,
            Flag::Multi => flags.multi = on,
            Flag::Dotnl => flags.dotnl = on,
            Flag::SwapGreed => flags.swap_greed = on,
            Flag::IgnoreSpace => flags.ignore_space = on,
            Flag::Unicode => flags.unicode = on,
            Flag::Crlf => flags.crlf = on,
            Flag::OnigurumaMode => flags.oniguruma_mode = on,
            Flag::IgnoreNumberedGroups => flags.ignore_numbered_groups = on,
        }
        flags
    }
}

/// The flag's bit if it is set, else 0.
fn bit(set: bool, flag: u32) -> u32
    ensures { result ≡ (if set then flag else 0) }
{
    if set { flag } else { 0 }
}

/// Whether the flag's bit is set.
#[inline]
fn has(bits: u32, flag: u32) -> bool
    ensures { result ≡ has_bit bits flag }
{
    bits & flag != 0
}
