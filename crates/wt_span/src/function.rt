ghost use Rattle.std.specs.Prelude.{◌≡◌};
ghost use Rattle.wt_span.specs.Functions.{name_of, word_of};

/// A parser function. `If` gives its part 1 or 2 by whether the text of part 0 isn't empty, `IfEq` its
/// part 2 or 3 by whether those of parts 0 and 1 are equal, `Switch` a part that is found by the text
/// of part 0. Which function a target names, and which part is given, is read in `wt_functions`.
#[derive(Clone, Copy, Debug, PartialEq, Eq)]
pub enum Function {
    If,
    IfEq,
    Switch,
}

impl Function {
    /// Its name, in lower case, as the data of a group has it.
    pub fn name(self) -> &'static str
        ensures { result.now ≡ name_of self }
    {
        match self {
            Function::If => "if",
            Function::IfEq => "ifeq",
            Function::Switch => "switch",
        }
    }

    /// Its word in a target: `#`, its name and a colon, in lower case.
    pub fn word(self) -> &'static [u8]
        ensures { result.now ≡ word_of self }
    {
        match self {
            Function::If => b"#if:",
            Function::IfEq => b"#ifeq:",
            Function::Switch => b"#switch:",
        }
    }
}
