ghost use Rattle.std.specs.Prelude.{◌≡◌, ℕ, ◌<◌, ◌≤◌, ◌==◌, true, false, take, [], ◌∷◌, Ok, Err, length, drop, codes, if◌then◌else◌};
ghost use Rattle.std.specs.List.{list_all};
ghost use Rattle.wt_html_grammar.specs.Signs.{is_among, is_void, in_text, in_value};
ghost use Rattle.wt_html_grammar.specs.Machine.{start, first, doctype, inside, less, naming, gap, attribute, named_so, equals, value, valued, slashed, closing, closed, wide, in_contents, in_doctype, special, at_open, at_end, at_name, end_tag, turned, in_escape, is_plain, mended, step};
ghost use Rattle.wt_html_grammar.specs.Events.{Building, out, out_open, out_end, out_escape, unit_byte, unit_char};
ghost use Rattle.wt_html_grammar.specs.Places.{is_accepted};
ghost use Rattle.wt_html_grammar.specs.declared.event.Event.TheVariants as ev;
ghost use Rattle.wt_html_elements.specs.Kept.{is_between};
ghost use Rattle.wt_html_elements.specs.Runs.{stays};
ghost use Rattle.wt_html_elements.specs.View.{view, view_after, names, first_name, other_names, place_of, tag_of, tag_behind_key, escape_of, Takes};
ghost use Rattle.wt_html_elements.specs.Held.{fits, is_some_open, is_some_attribute, moved};
ghost use Rattle.wt_html_elements.specs.Built.{building};

use crate::builder::Builder;
use crate::escape::{EscapeAt, TurnTo, turn};
use crate::fault::mended;
use crate::run::{text_run_len, value_run_len};
use crate::signs::{
    is_attribute_byte, is_lower, is_name_byte, is_plain_text, is_plain_value, is_quote, is_space,
    is_void,
};
use wt_html_grammar::{Event, Following, HtmlWhy, NESTED_ELEMENTS, follow};
use wt_html_reasons::follow_name;

/// Where a reader is, outside escapes and characters of several bytes.
#[derive(Clone, Copy)]
pub enum Mode {
    Start,
    First,
    Doctype,
    Inside,
    Less,
    Naming,
    Gap,
    Attribute,
    Named,
    Equals,
    Value,
    Valued,
    Slashed,
    Closing,
    Closed,
}

/// Whether a reader is inside an escape or a character, and how far that has come.
#[derive(Clone, Copy)]
pub enum Within {
    Nothing,
    Escape(EscapeAt),
    Character(Following),
}

/// The machine that takes byte after byte, and holds none of them: what is read lies in a `Builder`.
/// `at` says how much of a doctype or of the name of an end tag has come, and `quote` has the quote of
/// the value that is read.
#[derive(Clone, Copy)]
pub struct Machine {
    pub mode: Mode,
    pub within: Within,
    pub at: usize,
    pub quote: u8,
}

fn doctype() -> &'static [u8]
    ensures { result.now ≡ codes "doctype html>" }
{
    b"doctype html>"
}

impl Machine {
    pub fn new() -> Machine
        ensures { (x : Building) → view result x ≡ start }
    {
        Machine {
            mode: Mode::Start,
            within: Within::Nothing,
            at: 0,
            quote: 0,
        }
    }

    fn in_start(&mut self, builder: &Builder, byte: u8) -> Result<Event, HtmlWhy>
        requires within { self.old.within ≡ Within.Nothing }
        requires mode { self.old.mode ≡ Mode.Start }
        ensures { Takes (step start byte) (out start byte) result (view_after self.new (building builder.now)) }
    {
        if is_space(byte) {
            Ok(Event::Quiet)
        } else if byte == 60 {
            self.mode = Mode::First;
            Ok(Event::Quiet)
        } else {
            Err(HtmlWhy::Syntax)
        }
    }

    fn begin_name(&mut self, builder: &Builder, byte: u8) -> Result<Event, HtmlWhy>
        requires within { self.old.within ≡ Within.Nothing }
        ensures { Takes (Ok (naming (names (building builder.now).opened) (byte ∷ []))) (ev.NameBegin byte) result (view_after self.new (building builder.now)) }
    {
        self.mode = Mode::Naming;
        Ok(Event::NameBegin(byte))
    }

    fn in_first(&mut self, builder: &Builder, byte: u8) -> Result<Event, HtmlWhy>
        requires within { self.old.within ≡ Within.Nothing }
        requires head { is_some_open (building builder.now).opened ≡ false }
        ensures { Takes (step first byte) (out first byte) result (view_after self.new (building builder.now)) }
    {
        if is_lower(byte) {
            self.begin_name(builder, byte)
        } else if byte == 33 {
            self.at = 0;
            self.mode = Mode::Doctype;
            Ok(Event::Quiet)
        } else {
            Err(HtmlWhy::Syntax)
        }
    }

    fn in_doctype(&mut self, builder: &Builder, byte: u8) -> Result<Event, HtmlWhy>
        requires within { self.old.within ≡ Within.Nothing }
        requires head { is_some_open (building builder.now).opened ≡ false }
        requires mode { self.old.mode ≡ Mode.Doctype }
        ensures { Takes (in_doctype (drop self.old.at (codes "doctype html>")) byte) ev.Quiet result (view_after self.new (building builder.now)) }
    {
        match doctype().get(self.at) {
            Some(letter) => {
                if byte.to_ascii_lowercase() == *letter {
                    self.at += 1;
                    Ok(Event::Quiet)
                } else {
                    Err(HtmlWhy::Syntax)
                }
            }
            None => self.behind_doctype(builder, byte),
        }
    }

    fn behind_doctype(&mut self, builder: &Builder, byte: u8) -> Result<Event, HtmlWhy>
        requires within { self.old.within ≡ Within.Nothing }
        requires head { is_some_open (building builder.now).opened ≡ false }
        requires mode { self.old.mode ≡ Mode.Doctype }
        requires whole { length (codes "doctype html>") ≤ self.old.at }
        ensures { Takes (in_doctype [] byte) ev.Quiet result (view_after self.new (building builder.now)) }
    {
        if is_space(byte) {
            Ok(Event::Quiet)
        } else if byte == 60 {
            self.mode = Mode::Less;
            Ok(Event::Quiet)
        } else {
            Err(HtmlWhy::Syntax)
        }
    }

    fn in_inside(&mut self, builder: &Builder, byte: u8) -> Result<Event, HtmlWhy>
        requires within { self.old.within ≡ Within.Nothing }
        requires mode { self.old.mode ≡ Mode.Inside }
        ensures { Takes (step (inside (names (building builder.now).opened)) byte) (out (inside (names (building builder.now).opened)) byte) result (view_after self.new (building builder.now)) }
    {
        if builder.has_open() {
            self.in_contents(builder, byte)
        } else if is_space(byte) {
            Ok(Event::Quiet)
        } else {
            Err(HtmlWhy::Syntax)
        }
    }

    fn in_contents(&mut self, builder: &Builder, byte: u8) -> Result<Event, HtmlWhy>
        requires within { self.old.within ≡ Within.Nothing }
        requires mode { self.old.mode ≡ Mode.Inside }
        ensures { Takes (in_contents (names (building builder.now).opened) byte) (if in_text byte then ev.Byte byte else ev.Quiet) result (view_after self.new (building builder.now)) }
    {
        if is_plain_text(byte) {
            Ok(Event::Byte(byte))
        } else if byte == 60 {
            self.mode = Mode::Less;
            Ok(Event::Quiet)
        } else {
            self.special(builder, byte, Event::Byte(byte))
        }
    }

    /// A byte of a text or of a value that begins an escape, or a character of several bytes.
    fn special(&mut self, builder: &Builder, byte: u8, told: Event) -> Result<Event, HtmlWhy>
        requires within { self.old.within ≡ Within.Nothing }
        requires told { place_of self.old (moved (building builder.now) told) ≡ place_of self.old (building builder.now) }
        ensures { Takes (special (place_of self.old (building builder.now)) byte) (if byte == 38 then ev.Quiet else told) result (view_after self.new (building builder.now)) }
    {
        if byte == 38 {
            self.within = Within::Escape(EscapeAt::Ampersand);
            return Ok(Event::Quiet);
        }
        match follow(byte) {
            None => Err(HtmlWhy::NotUtf8),
            Some(following) => {
                self.within = Within::Character(following);
                Ok(told)
            }
        }
    }

    fn end_tag(&mut self, builder: &Builder) -> Result<Event, HtmlWhy>
        requires within { self.old.within ≡ Within.Nothing }
        ensures { Takes (end_tag (names (building builder.now).opened)) ev.Quiet result (view_after self.new (building builder.now)) }
    {
        if builder.has_open() {
            self.at = 0;
            self.mode = Mode::Closing;
            Ok(Event::Quiet)
        } else {
            Err(HtmlWhy::Syntax)
        }
    }

    fn in_less(&mut self, builder: &Builder, byte: u8) -> Result<Event, HtmlWhy>
        requires within { self.old.within ≡ Within.Nothing }
        ensures { Takes (step (less (names (building builder.now).opened)) byte) (out (less (names (building builder.now).opened)) byte) result (view_after self.new (building builder.now)) }
    {
        if is_lower(byte) {
            if builder.depth() < NESTED_ELEMENTS {
                self.begin_name(builder, byte)
            } else {
                Err(HtmlWhy::TooDeep)
            }
        } else if byte == 47 {
            self.end_tag(builder)
        } else {
            Err(HtmlWhy::Syntax)
        }
    }

    fn open_element(&mut self, builder: &Builder) -> Result<Event, HtmlWhy>
        requires within { self.old.within ≡ Within.Nothing }
        ensures { Takes (at_open (tag_of (building builder.now)) 62) (out_open (tag_of (building builder.now)) 62) result (view_after self.new (building builder.now)) }
    {
        self.mode = Mode::Inside;
        if is_void(builder.tag.name.as_slice()) {
            Ok(Event::Void)
        } else {
            Ok(Event::Opened)
        }
    }

    fn at_open(&mut self, builder: &Builder, byte: u8) -> Result<Event, HtmlWhy>
        requires within { self.old.within ≡ Within.Nothing }
        ensures { Takes (at_open (tag_of (building builder.now)) byte) (out_open (tag_of (building builder.now)) byte) result (view_after self.new (building builder.now)) }
    {
        if is_space(byte) {
            self.mode = Mode::Gap;
            Ok(Event::Quiet)
        } else if byte == 62 {
            self.open_element(builder)
        } else if byte == 47 {
            if is_void(builder.tag.name.as_slice()) {
                self.mode = Mode::Slashed;
                Ok(Event::Quiet)
            } else {
                Err(HtmlWhy::Syntax)
            }
        } else {
            Err(HtmlWhy::Syntax)
        }
    }

    fn in_naming(&mut self, builder: &Builder, byte: u8) -> Result<Event, HtmlWhy>
        requires within { self.old.within ≡ Within.Nothing }
        requires mode { self.old.mode ≡ Mode.Naming }
        requires none { is_some_attribute (building builder.now).attributes ≡ false }
        ensures { Takes (step (naming (names (building builder.now).opened) (building builder.now).name) byte) (out (naming (names (building builder.now).opened) (building builder.now).name) byte) result
            (view_after self.new (building builder.now)) }
    {
        if is_name_byte(byte) {
            Ok(Event::Name(byte))
        } else {
            self.at_open(builder, byte)
        }
    }

    fn in_gap(&mut self, builder: &Builder, byte: u8) -> Result<Event, HtmlWhy>
        requires within { self.old.within ≡ Within.Nothing }
        ensures { Takes (step (gap (tag_of (building builder.now))) byte) (out (gap (tag_of (building builder.now))) byte) result (view_after self.new (building builder.now)) }
    {
        if is_attribute_byte(byte) {
            self.mode = Mode::Attribute;
            Ok(Event::KeyBegin(byte))
        } else {
            self.at_open(builder, byte)
        }
    }

    fn at_name(&mut self, builder: &Builder, byte: u8) -> Result<Event, HtmlWhy>
        requires within { self.old.within ≡ Within.Nothing }
        ensures { Takes (at_name (tag_behind_key (building builder.now)) byte) ev.Quiet result (view_after self.new (building builder.now)) }
    {
        if is_space(byte) {
            self.mode = Mode::Named;
            Ok(Event::Quiet)
        } else if byte == 61 {
            self.mode = Mode::Equals;
            Ok(Event::Quiet)
        } else {
            Err(HtmlWhy::Syntax)
        }
    }

    fn end_attribute_name(&mut self, builder: &Builder, byte: u8) -> Result<Event, HtmlWhy>
        requires within { self.old.within ≡ Within.Nothing }
        ensures { Takes (if is_among (building builder.now).key (tag_of (building builder.now)).seen then Err HtmlWhy.Repeated else at_name
            (tag_behind_key (building builder.now)) byte) ev.Quiet result (view_after self.new (building builder.now)) }
    {
        if builder.tag.attributes.contains(builder.tag.key.as_slice()) {
            Err(HtmlWhy::Repeated)
        } else {
            self.at_name(builder, byte)
        }
    }

    fn in_attribute(&mut self, builder: &Builder, byte: u8) -> Result<Event, HtmlWhy>
        requires within { self.old.within ≡ Within.Nothing }
        requires mode { self.old.mode ≡ Mode.Attribute }
        ensures { Takes (step (attribute (tag_of (building builder.now)) (building builder.now).key) byte) (out (attribute (tag_of (building builder.now)) (building builder.now).key) byte) result
            (view_after self.new (building builder.now)) }
    {
        if is_attribute_byte(byte) {
            Ok(Event::Key(byte))
        } else {
            self.end_attribute_name(builder, byte)
        }
    }

    fn in_equals(&mut self, builder: &Builder, byte: u8) -> Result<Event, HtmlWhy>
        requires within { self.old.within ≡ Within.Nothing }
        requires mode { self.old.mode ≡ Mode.Equals }
        ensures { Takes (step (equals (tag_behind_key (building builder.now))) byte) (out (equals (tag_behind_key (building builder.now))) byte) result (view_after self.new (building builder.now)) }
    {
        if is_quote(byte) {
            self.quote = byte;
            self.mode = Mode::Value;
            Ok(Event::ValueBegin)
        } else if is_space(byte) {
            Ok(Event::Quiet)
        } else {
            Err(HtmlWhy::Syntax)
        }
    }

    fn in_value(&mut self, builder: &Builder, byte: u8) -> Result<Event, HtmlWhy>
        requires within { self.old.within ≡ Within.Nothing }
        requires mode { self.old.mode ≡ Mode.Value }
        ensures { Takes (step (value (tag_behind_key (building builder.now)) self.old.quote) byte) (out (value (tag_behind_key (building builder.now)) self.old.quote) byte) result (view_after self.new (building builder.now)) }
    {
        if is_plain_value(self.quote, byte) {
            Ok(Event::ValueByte(byte))
        } else if byte == self.quote {
            self.mode = Mode::Valued;
            Ok(Event::ValueEnd)
        } else {
            self.special(builder, byte, Event::ValueByte(byte))
        }
    }

    fn in_slashed(&mut self, builder: &Builder, byte: u8) -> Result<Event, HtmlWhy>
        requires within { self.old.within ≡ Within.Nothing }
        ensures { Takes (step (slashed (tag_of (building builder.now))) byte) ev.Void result (view_after self.new (building builder.now)) }
    {
        if byte == 62 {
            self.mode = Mode::Inside;
            Ok(Event::Void)
        } else {
            Err(HtmlWhy::Syntax)
        }
    }

    fn at_end(&mut self, builder: &Builder, byte: u8) -> Result<Event, HtmlWhy>
        requires within { self.old.within ≡ Within.Nothing }
        ensures { Takes (at_end (other_names (building builder.now).opened) byte) (out_end byte) result (view_after self.new (building builder.now)) }
    {
        if is_space(byte) {
            self.mode = Mode::Closed;
            Ok(Event::Quiet)
        } else if byte == 62 {
            self.mode = Mode::Inside;
            Ok(Event::Closed)
        } else {
            Err(HtmlWhy::Syntax)
        }
    }

    fn behind_end_name(&mut self, builder: &Builder, byte: u8) -> Result<Event, HtmlWhy>
        requires within { self.old.within ≡ Within.Nothing }
        ensures { Takes (step (closing [] (other_names (building builder.now).opened)) byte) (out (closing [] (other_names (building builder.now).opened)) byte) result (view_after self.new (building builder.now)) }
    {
        if is_name_byte(byte) {
            Err(HtmlWhy::EndTag)
        } else {
            self.at_end(builder, byte)
        }
    }

    fn in_closing(&mut self, builder: &Builder, byte: u8) -> Result<Event, HtmlWhy>
        requires within { self.old.within ≡ Within.Nothing }
        requires mode { self.old.mode ≡ Mode.Closing }
        ensures { Takes (step (closing (drop self.old.at (first_name (building builder.now).opened)) (other_names (building builder.now).opened)) byte)
            (out (closing (drop self.old.at (first_name (building builder.now).opened)) (other_names (building builder.now).opened)) byte) result (view_after self.new (building builder.now)) }
    {
        match builder.innermost_name().get(self.at) {
            Some(letter) => {
                follow_name(*letter, byte)?;
                self.at += 1;
                Ok(Event::Quiet)
            }
            None => self.behind_end_name(builder, byte),
        }
    }

    fn in_place(&mut self, builder: &Builder, byte: u8) -> Result<Event, HtmlWhy>
        requires within { self.old.within ≡ Within.Nothing }
        requires fits { fits (place_of self.old (building builder.now)) (building builder.now) ≡ true }
        ensures { Takes (step (place_of self.old (building builder.now)) byte) (out (place_of self.old (building builder.now)) byte) result (view_after self.new (building builder.now)) }
    {
        match self.mode {
            Mode::Inside => self.in_inside(builder, byte),
            Mode::Value => self.in_value(builder, byte),
            Mode::Start => self.in_start(builder, byte),
            Mode::First => self.in_first(builder, byte),
            Mode::Doctype => self.in_doctype(builder, byte),
            Mode::Less => self.in_less(builder, byte),
            Mode::Naming => self.in_naming(builder, byte),
            Mode::Gap => self.in_gap(builder, byte),
            Mode::Attribute => self.in_attribute(builder, byte),
            Mode::Named => self.at_name(builder, byte),
            Mode::Equals => self.in_equals(builder, byte),
            Mode::Valued => self.at_open(builder, byte),
            Mode::Slashed => self.in_slashed(builder, byte),
            Mode::Closing => self.in_closing(builder, byte),
            Mode::Closed => self.at_end(builder, byte),
        }
    }

    /// A byte that was taken of a text or of a value.
    fn told_byte(&self, builder: &Builder, byte: u8) -> Event
        ensures { result ≡ unit_byte (place_of self.now (building builder.now)) byte }
    {
        match self.mode {
            Mode::Value => Event::ValueByte(byte),
            _ => Event::Byte(byte),
        }
    }

    fn told_char(&self, builder: &Builder, character: char) -> Event
        ensures { result ≡ unit_char (place_of self.now (building builder.now)) character }
    {
        match self.mode {
            Mode::Value => Event::ValueChar(character),
            _ => Event::Char(character),
        }
    }

    fn in_escape(&mut self, builder: &Builder, escape: EscapeAt, byte: u8) -> Result<Event, HtmlWhy>
        ensures { Takes (turned (place_of self.old (building builder.now)) (escape_of escape) (in_escape (escape_of escape) byte))
            (out_escape (place_of self.old (building builder.now)) (escape_of escape) byte) result (view_after self.new (building builder.now)) }
    {
        match turn(escape, byte) {
            TurnTo::Stop => Err(HtmlWhy::Escape),
            TurnTo::On(escape) => {
                self.within = Within::Escape(escape);
                Ok(Event::Quiet)
            }
            TurnTo::Ended(character) => {
                self.within = Within::Nothing;
                Ok(self.told_char(builder, character))
            }
        }
    }

    fn in_character(
        &mut self,
        builder: &Builder,
        following: Following,
        byte: u8,
    ) -> Result<Event, HtmlWhy>
        ensures { Takes (turned (place_of self.old (building builder.now)) (wide following.low following.high following.more)
            (in_escape (wide following.low following.high following.more) byte)) (unit_byte (place_of self.old (building builder.now)) byte) result (view_after self.new (building builder.now)) }
    {
        if byte < following.low || following.high < byte {
            return Err(HtmlWhy::NotUtf8);
        }
        if following.more == 0 {
            self.within = Within::Nothing;
        } else {
            self.within = Within::Character(Following {
                low: 128,
                high: 191,
                more: following.more - 1,
            });
        }
        Ok(self.told_byte(builder, byte))
    }

    fn step(&mut self, builder: &Builder, byte: u8) -> Result<Event, HtmlWhy>
        requires fits { fits (view self.old (building builder.now)) (building builder.now) ≡ true }
        ensures { Takes (step (view self.old (building builder.now)) byte) (out (view self.old (building builder.now)) byte) result (view_after self.new (building builder.now)) }
    {
        match self.within {
            Within::Nothing => self.in_place(builder, byte),
            Within::Escape(escape) => self.in_escape(builder, escape, byte),
            Within::Character(following) => self.in_character(builder, following, byte),
        }
    }

    /// Takes a byte and says what it tells, or why it can't be there.
    pub fn take(&mut self, builder: &Builder, byte: u8) -> Result<Event, HtmlWhy>
        requires fits { fits (view self.old (building builder.now)) (building builder.now) ≡ true }
        ensures { Takes (mended byte (step (view self.old (building builder.now)) byte)) (out (view self.old (building builder.now)) byte) result (view_after self.new (building builder.now)) }
    {
        match self.step(builder, byte) {
            Ok(event) => Ok(event),
            Err(why) => Err(mended(byte, why)),
        }
    }

    /// How many bytes at the front stand for themselves in the text or in the value that is read, so that
    /// the machine stays where it is; none elsewhere.
    pub fn run_len(&self, builder: &Builder, bytes: &[u8]) -> usize
        ensures run { list_all (stays (view self.now (building builder.now))) (take result bytes.now) ≡ true }
        ensures within { result ≤ length bytes.now }
        ensures place { 0 < result → self.now.within ≡ Within.Nothing }
    {
        match self.within {
            Within::Nothing => self.run_len_here(builder, bytes),
            _ => 0,
        }
    }

    fn run_len_here(&self, builder: &Builder, bytes: &[u8]) -> usize
        requires { self.now.within ≡ Within.Nothing }
        ensures run { list_all (stays (view self.now (building builder.now))) (take result bytes.now) ≡ true }
        ensures within { result ≤ length bytes.now }
    {
        match self.mode {
            Mode::Inside => {
                if builder.has_open() {
                    text_run_len(bytes)
                } else {
                    0
                }
            }
            Mode::Value => value_run_len(self.quote, bytes),
            _ => 0,
        }
    }

    /// Whether the machine is between two tags, characters or escapes.
    pub fn is_between(&self) -> bool
        ensures { (x : Building) → result ≡ is_between (view self.now x) }
    {
        match self.within {
            Within::Nothing => match self.mode {
                Mode::Start | Mode::Inside => true,
                Mode::Doctype => doctype().len() <= self.at,
                _ => false,
            },
            _ => false,
        }
    }

    /// Whether nothing more is needed.
    pub fn is_accepted(&self, builder: &Builder) -> bool
        ensures { result ≡ is_accepted (view self.now (building builder.now)) }
    {
        match self.within {
            Within::Nothing => match self.mode {
                Mode::Inside => !builder.has_open(),
                _ => false,
            },
            _ => false,
        }
    }
}
