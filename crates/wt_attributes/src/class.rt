//! Runs of bytes of one class, at the front of a text.

ghost use Rattle.std.specs.Prelude.{◌≡◌, ◌≤◌, option_map, length, take, drop, true};
ghost use Rattle.wt_attributes.specs.Classes.{in_class, ends_in_ascii, run_len};
ghost use Rattle.wt_attributes.specs.Attributes.{ended, past_blanks};

/// Bytes that a scan passes over.
#[derive(Clone, Copy, Debug)]
pub enum ScanClass {
    /// Spaces and tabs.
    Blank,
    NoBlank,
    /// What a value without quotes may hold.
    Bare,
    /// All but `"`.
    NoDouble,
    /// All but `'`.
    NoSingle,
}

impl ScanClass {
    fn has(self, byte: u8) -> bool
        ensures { result ≡ in_class self byte }
    {
        match self {
            ScanClass::Blank => byte == b' ' || byte == b'\t',
            ScanClass::NoBlank => !(byte == b' ' || byte == b'\t'),
            ScanClass::Bare => {
                !(byte == b' ' || byte == b'\t' || byte == b'"' || byte == b'\'' || byte == b'=')
            }
            ScanClass::NoDouble => byte != b'"',
            ScanClass::NoSingle => byte != b'\'',
        }
    }

    /// How many of these bytes begin a text.
    fn run_len(self, bytes: &[u8]) -> usize
        ensures value { result ≡ run_len self bytes.now }
        ensures within { result ≤ length bytes.now }
    {
        for (i, byte) in bytes.iter().enumerate() {
            if !self.has(*byte) {
                return i;
            }
        }
        bytes.len()
    }

    /// The bytes of the class that begin a text, and what is left after them.
    pub fn split_run(self, text: &str) -> (&str, &str)
        ensures run { result.0.now ≡ take (run_len self text.entry.now) text.entry.now }
        ensures rest { result.1.now ≡ drop (run_len self text.entry.now) text.entry.now }
    {
        let len = self.run_len(text.as_bytes());
        text.split_at(len)
    }

    /// The bytes of the class that begin a text, and what is left after the one that ends the run,
    /// where one does.
    pub fn split_ended(self, text: &str) -> Option<(&str, &str)>
        requires { ends_in_ascii self ≡ true }
        ensures { option_map (λ r. (r.0.now, r.1.now)) result ≡ ended (run_len self text.entry.now) text.entry.now }
    {
        let len = self.run_len(text.as_bytes());
        if len == text.len() {
            return None;
        }
        let (run, _) = text.split_at(len);
        let (_, rest) = text.split_at(len + 1);
        Some((run, rest))
    }
}

/// The text from its first character on that is no blank.
#[tactic(auto, unfolding(crate::specs::Attributes::past_blanks))]
pub fn past_blanks(text: &str) -> &str
    ensures { result.now ≡ past_blanks text.entry.now }
{
    ScanClass::Blank.split_run(text).1
}
