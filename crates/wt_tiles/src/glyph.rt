//! Items, as inline forms read them, and small words on runs of them.

ghost use Rattle.std.specs.Prelude.{◌≡◌, ◌<◌, ◌≤◌, length};
ghost use Rattle.wt_tiles.specs.Glyphs.{in_class, first_is, run_len, begins, begins_like, is_like, like_byte};

/// An item: a byte of a character, an entity by its character, any other atom, or an invisible mark.
#[derive(Clone, Copy, Debug, PartialEq, Eq)]
pub enum Glyph {
    Byte(u8),
    Entity(char),
    Atom,
    Mark,
}

/// Items that are alike in how far a run of them goes.
#[derive(Clone, Copy, Debug, PartialEq, Eq)]
pub enum GlyphClass {
    /// Spaces and tabs.
    Blank,
    /// ASCII letters.
    Letter,
    /// ASCII letters and digits.
    Name,
    /// ASCII letters in lower case, which join a link.
    Trail,
    /// What may be in a tag: characters but `<`, `>` and line breaks, entities, marks.
    Tag,
    /// One character of one byte.
    Only(u8),
}

impl GlyphClass {
    /// Whether a character of one byte is of the class, or a byte of a longer one.
    fn has_byte(self, byte: u8) -> bool
        ensures { result ≡ in_class self (Glyph.Byte byte) }
    {
        match self {
            GlyphClass::Blank => byte == b' ' || byte == b'\t',
            GlyphClass::Letter => byte.is_ascii_alphabetic(),
            GlyphClass::Name => byte.is_ascii_alphanumeric(),
            GlyphClass::Trail => b'a' <= byte && byte <= b'z',
            GlyphClass::Tag => !(byte == b'<' || byte == b'>' || byte == b'\n'),
            GlyphClass::Only(one) => byte == one,
        }
    }

    /// Whether entities and marks are of the class.
    fn has_others(self) -> bool
        ensures { result ≡ in_class self Glyph.Mark }
    {
        match self {
            GlyphClass::Tag => true,
            GlyphClass::Blank
            | GlyphClass::Letter
            | GlyphClass::Name
            | GlyphClass::Trail
            | GlyphClass::Only(_) => false,
        }
    }

    pub fn has(self, glyph: Glyph) -> bool
        ensures { result ≡ in_class self glyph }
    {
        match glyph {
            Glyph::Byte(byte) => self.has_byte(byte),
            Glyph::Entity(_) => self.has_others(),
            Glyph::Mark => self.has_others(),
            Glyph::Atom => false,
        }
    }
}

/// Whether the first item is of a class.
pub fn first_is(class: GlyphClass, glyphs: &[Glyph]) -> bool
    ensures { result ≡ first_is class glyphs.now }
{
    match glyphs.first() {
        Some(glyph) => class.has(*glyph),
        None => false,
    }
}

/// How many items of a class are first.
pub fn run_len(class: GlyphClass, glyphs: &[Glyph]) -> usize
    ensures value { result ≡ run_len class glyphs.now }
    ensures within { result ≤ length glyphs.now }
{
    for (i, glyph) in glyphs.iter().enumerate() {
        if !class.has(*glyph) {
            return i;
        }
    }
    glyphs.len()
}

/// Whether a word of ASCII characters is first, spelled so.
pub fn begins(word: &[u8], glyphs: &[Glyph]) -> bool
    ensures { result ≡ begins word.now glyphs.now }
{
    if glyphs.len() < word.len() {
        return false;
    }
    for (i, byte) in word.iter().enumerate() {
        if !GlyphClass::Only(*byte).has(glyphs[i]) {
            return false;
        }
    }
    true
}

/// Whether an item is this character, a letter in lower case or no letter, without ASCII case.
fn is_like_byte(glyph: Glyph, byte: u8) -> bool
    ensures { result ≡ like_byte byte glyph }
{
    match glyph {
        Glyph::Byte(own) => own.to_ascii_lowercase() == byte,
        Glyph::Entity(_) | Glyph::Atom | Glyph::Mark => false,
    }
}

/// Whether a word in lower case is first, without ASCII case.
pub fn begins_like(word: &[u8], glyphs: &[Glyph]) -> bool
    ensures { result ≡ begins_like word.now glyphs.now }
{
    if glyphs.len() < word.len() {
        return false;
    }
    for (i, byte) in word.iter().enumerate() {
        if !is_like_byte(glyphs[i], *byte) {
            return false;
        }
    }
    true
}

/// Whether the items are a word in lower case, without ASCII case, and nothing else.
pub fn is_like(word: &[u8], glyphs: &[Glyph]) -> bool
    ensures { result ≡ is_like word.now glyphs.now }
{
    glyphs.len() == word.len() && begins_like(word, glyphs)
}
