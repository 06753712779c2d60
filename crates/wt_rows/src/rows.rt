//! The rows of a page, made from its pieces.

ghost use Rattle.std.specs.Prelude.{◌≡◌, ◌≤◌, ◌<◌, ◌+◌, ℕ, ◌∷◌, [], ◌++◌, List, All, length, take, drop, replicate, slice_index, IfOk};
ghost use Rattle.wt_span.specs.Items.{items, items_of};
ghost use Rattle.wt_span.specs.Origins.{IsSoundPiece};
ghost use Rattle.wt_lines.specs.Kinds.{past, is_idle, is_mark_sign};
ghost use Rattle.wt_lines.specs.Lines.{IsUnbroken, content};
ghost use Rattle.wt_lines.specs.Pieces.{AreLeadingMarks};
ghost use Rattle.wt_page.specs.Lines.{kind_at};
ghost use Rattle.wt_tiles.specs.Cutting.{IsEdgeIn};
ghost use Rattle.wt_page.specs.Rows.{signs, marks_len, idle_len, line_rows, unwritten_end, rows};
ghost use Rattle.wt_rows.specs.Ready.{Begins};
ghost use Rattle.wt_rows.specs.Building.{AreWhole, IsRowOf, row_of, AreMade, ArePageRows, made_rows, rows_before, HasLine, IsTextLine, cut_row, parted_rows, table_end_rows, rule_rows, IsKindAt, IsIdleCut, IsSeenFirst};

use crate::cuts::{cut, cut_front};
use crate::front::Front;
use crate::row::RowAt;
use std::alloc::Global;
use wt_lines::{LineKind, Signs, is_chars, kind_of_pieces, marks_len};
use wt_page::content_len;
use wt_span::{List, NoMemory, Piece, front_of, rest_of};

/// The rows of a page, and its pieces, which are cut where rows and their leads end.
#[derive(Drop)]
pub struct PageRows<'a> {
    pub pieces: List<Piece<'a>>,
    pub rows: List<RowAt>,
}

/// The first byte of a text.
fn first_byte(text: &str) -> u8
    requires { 0 < length text.now }
    ensures value { result ≡ slice_index text.now 0 }
    ensures byte { result < 256 }
{
    text.as_bytes()[0]
}

/// The sign at the front of a piece is a mark's only where the piece is a mark, since no byte is as
/// great as the number of marks.
fn see_first(piece: Piece<'_>)
    requires { IsSoundPiece piece }
    ensures { IsSeenFirst (items_of piece.entry) }
{
    if is_chars(piece.form) {
        let _first = first_byte(piece.text.as_str());
    }
}

/// How many pieces of marks are at the front. What is after them begins with no mark.
fn lead_len(content: &[Piece<'_>]) -> usize
    requires { All IsSoundPiece content.now }
    ensures cut { AreLeadingMarks content.now result }
    ensures within { result ≤ length content.now }
    ensures seen { past is_mark_sign (signs (items content.now)) ≡ signs (items (drop result content.now)) }
{
    let n = marks_len(content);
    if n < content.len() {
        see_first(content[n]);
    }
    n
}

/// What a line is, where so many tables are open.
pub fn line_kind(line: &[Piece<'_>], tables: u32) -> LineKind
    requires { AreWhole line.now }
    ensures { result ≡ kind_at tables (items line.now) }
{
    kind_of_pieces(front_of(line, content_len(line)), tables)
}

/// A line with a sign that is a row by itself.
#[derive(Drop)]
struct SignedLine<'l, 'a> {
    lead: &'l [Piece<'a>],
    sign: List<Piece<'a>>,
    /// What comes after the sign, without the line's ending.
    behind: List<Piece<'a>>,
    ending: &'l [Piece<'a>],
}

impl<'a> PageRows<'a> {
    /// No rows yet.
    pub fn new(alloc: Global) -> PageRows<'a>
        ensures rows { made_rows result ≡ [] }
        ensures made { ArePageRows result }
    {
        PageRows {
            pieces: List::new(alloc),
            rows: List::new(alloc),
        }
    }

    /// One more row, of these pieces.
    fn with_row(
        self,
        kind: LineKind,
        lead: &[Piece<'a>],
        inside: &[Piece<'a>],
        ending: &[Piece<'a>],
    ) -> Result<PageRows<'a>, NoMemory>
        requires made { ArePageRows self }
        requires row { IsRowOf kind lead.now inside.now ending.now }
        ensures rows { IfOk result (λ r. made_rows r ≡ made_rows self.entry ++ row_of kind lead.now inside.now ending.now ∷ []) }
        ensures made_after { IfOk result (λ r. ArePageRows r) }
    {
        let PageRows {
            mut pieces,
            mut rows,
        } = self;
        let start = pieces.len();
        pieces.extend_from_slice(lead)?;
        let from = pieces.len();
        pieces.extend_from_slice(inside)?;
        let to = pieces.len();
        pieces.extend_from_slice(ending)?;
        let end = pieces.len();
        rows.push(RowAt {
            kind,
            start,
            from,
            to,
            end,
        })?;
        Ok(PageRows { pieces, rows })
    }

    /// A line whose lead are the marks at its front.
    fn with_marked(
        self,
        kind: LineKind,
        content: &[Piece<'a>],
        ending: &[Piece<'a>],
    ) -> Result<PageRows<'a>, NoMemory>
        requires made { ArePageRows self }
        requires content { AreWhole content.now }
        requires ending { AreWhole ending.now }
        requires begins { Begins kind (past is_mark_sign (signs (items content.now))) }
        ensures rows { IfOk result (λ r. made_rows r
            ≡ made_rows self.entry ++ cut_row kind (marks_len (items content.now)) (items content.now) (items ending.now) ∷ []) }
        ensures made_after { IfOk result (λ r. ArePageRows r) }
    {
        let n = lead_len(content);
        self.with_row(kind, front_of(content, n), rest_of(content, n), ending)
    }

    /// A line of a table, whose lead are the blanks and marks at its front.
    fn with_idle(
        self,
        alloc: Global,
        kind: LineKind,
        content: &[Piece<'a>],
        ending: &[Piece<'a>],
    ) -> Result<PageRows<'a>, NoMemory>
        requires made { ArePageRows self }
        requires content { AreWhole content.now }
        requires ending { AreWhole ending.now }
        requires unbroken { IsUnbroken (items content.now) }
        requires edge { IsIdleCut (items content.now) }
        requires begins { Begins kind (past is_idle (signs (items content.now))) }
        ensures rows { IfOk result (λ r. made_rows r
            ≡ made_rows self.entry ++ cut_row kind (idle_len (items content.now)) (items content.now) (items ending.now) ∷ []) }
        ensures made_after { IfOk result (λ r. ArePageRows r) }
    {
        let (lead, rest) = cut_front(alloc, content, Front::Idle)?;
        self.with_row(kind, lead.as_slice(), rest.as_slice(), ending)
    }

    /// A sign after its lead, and what comes after it on the line: the end of its row, or a row of
    /// text where something is seen.
    fn with_sign(self, kind: LineKind, line: SignedLine<'_, 'a>) -> Result<PageRows<'a>, NoMemory>
        requires made { ArePageRows self }
        requires lead { AreWhole line.lead.now }
        requires sign { AreWhole line.sign }
        requires behind { AreWhole line.behind }
        requires ending { AreWhole line.ending.now }
        requires free { (ss : List ℕ) → Begins kind ss }
        ensures rows { IfOk result (λ r. made_rows r ≡ made_rows self.entry
            ++ parted_rows kind (items line.entry.lead.now) (items line.entry.sign) (items line.entry.behind) (items line.entry.ending.now)) }
        ensures made_after { IfOk result (λ r. ArePageRows r) }
    {
        let SignedLine {
            lead,
            sign,
            behind,
            ending,
        } = line;
        if Signs::of(behind.as_slice()).is_idle() {
            let mut end = behind;
            end.extend_from_slice(ending)?;
            return self.with_row(kind, lead, sign.as_slice(), end.as_slice());
        }
        let none = front_of(ending, 0);
        let made = self.with_row(kind, lead, sign.as_slice(), none)?;
        made.with_marked(LineKind::Text, behind.as_slice(), ending)
    }

    /// The end of a table.
    fn with_table_end(
        self,
        alloc: Global,
        content: &[Piece<'a>],
        ending: &[Piece<'a>],
    ) -> Result<PageRows<'a>, NoMemory>
        requires made { ArePageRows self }
        requires content { AreWhole content.now }
        requires ending { AreWhole ending.now }
        requires unbroken { IsUnbroken (items content.now) }
        requires edge { IsIdleCut (items content.now) }
        requires within { 2 ≤ length (drop (idle_len (items content.now)) (items content.now)) }
        requires sign_edge { IsEdgeIn (drop (idle_len (items content.now)) (items content.now)) 2 }
        ensures rows { IfOk result (λ r. made_rows r ≡ made_rows self.entry ++ table_end_rows (items content.now) (items ending.now)) }
        ensures made_after { IfOk result (λ r. ArePageRows r) }
    {
        let (lead, rest) = cut_front(alloc, content, Front::Idle)?;
        let (sign, behind) = cut(alloc, rest.as_slice(), 2)?;
        let line = SignedLine {
            lead: lead.as_slice(),
            sign,
            behind,
            ending,
        };
        self.with_sign(LineKind::TableEnd, line)
    }

    /// A rule.
    fn with_rule(
        self,
        alloc: Global,
        content: &[Piece<'a>],
        ending: &[Piece<'a>],
    ) -> Result<PageRows<'a>, NoMemory>
        requires made { ArePageRows self }
        requires content { AreWhole content.now }
        requires ending { AreWhole ending.now }
        requires unbroken { IsUnbroken (items content.now) }
        ensures rows { IfOk result (λ r. made_rows r ≡ made_rows self.entry ++ rule_rows (items content.now) (items ending.now)) }
        ensures made_after { IfOk result (λ r. ArePageRows r) }
    {
        let n = marks_len(content);
        let (sign, behind) = cut_front(alloc, rest_of(content, n), Front::Dashes)?;
        let line = SignedLine {
            lead: front_of(content, n),
            sign,
            behind,
            ending,
        };
        self.with_sign(LineKind::Rule, line)
    }

    /// The rows of a line of this kind.
    pub fn with_line(
        self,
        alloc: Global,
        kind: LineKind,
        line: &[Piece<'a>],
    ) -> Result<PageRows<'a>, NoMemory>
        requires made { ArePageRows self }
        requires line { AreWhole line.now }
        requires unbroken { IsUnbroken (content (items line.now)) }
        requires kind { IsKindAt kind (items line.now) }
        ensures rows { IfOk result (λ r. made_rows r ≡ made_rows self.entry ++ line_rows kind (items line.now)) }
        ensures made_after { IfOk result (λ r. ArePageRows r) }
    {
        let n = content_len(line);
        let content = front_of(line, n);
        let ending = rest_of(line, n);
        match kind {
            LineKind::Blank => {
                let none = front_of(line, 0);
                self.with_row(LineKind::Blank, none, line, none)
            }
            LineKind::TableOpen
            | LineKind::Caption
            | LineKind::Row
            | LineKind::Cell
            | LineKind::Header => self.with_idle(alloc, kind, content, ending),
            LineKind::TableEnd => self.with_table_end(alloc, content, ending),
            LineKind::Rule => self.with_rule(alloc, content, ending),
            LineKind::Heading | LineKind::List | LineKind::Pre | LineKind::Text => {
                self.with_marked(kind, content, ending)
            }
        }
    }

    /// One more row, of what is from a place on: so many pieces as its lead, and so many before
    /// its end.
    fn with_row_from(
        self,
        kind: LineKind,
        start: usize,
        lead: usize,
        len: usize,
    ) -> Result<PageRows<'a>, NoMemory>
        requires made { AreMade (take start self.pieces) self.rows }
        requires lead { lead ≤ len }
        requires within { start + len ≤ length self.pieces }
        requires row { let line = drop start self.pieces in IsRowOf kind (take lead line) (drop lead (take len line)) (drop len line) }
        ensures rows { IfOk result (λ r. let line = drop start self.entry.pieces in
            made_rows r ≡ rows_before start self.entry ++ row_of kind (take lead line) (drop lead (take len line)) (drop len line) ∷ []) }
        ensures made_after { IfOk result (λ r. ArePageRows r) }
    {
        let PageRows { pieces, mut rows } = self;
        let end = pieces.len();
        rows.push(RowAt {
            kind,
            start,
            from: start + lead,
            to: start + len,
            end,
        })?;
        Ok(PageRows { pieces, rows })
    }

    /// The row of a line of text from a place on, whose lead are the marks at its front.
    fn with_text_from(self, start: usize, kind: LineKind) -> Result<PageRows<'a>, NoMemory>
        requires line { HasLine start kind self }
        requires text { IsTextLine kind }
        ensures rows { IfOk result (λ r. made_rows r ≡ rows_before start self.entry ++ line_rows kind (items (drop start self.entry.pieces))) }
        ensures made_after { IfOk result (λ r. ArePageRows r) }
    {
        let line = rest_of(self.pieces.as_slice(), start);
        let len = content_len(line);
        let lead = lead_len(front_of(line, len));
        self.with_row_from(kind, start, lead, len)
    }

    /// The rows of a line from a place on, which is cut where these begin and end.
    fn with_cut_from(
        self,
        alloc: Global,
        start: usize,
        kind: LineKind,
    ) -> Result<PageRows<'a>, NoMemory>
        requires line { HasLine start kind self }
        ensures rows { IfOk result (λ r. made_rows r ≡ rows_before start self.entry ++ line_rows kind (items (drop start self.entry.pieces))) }
        ensures made_after { IfOk result (λ r. ArePageRows r) }
    {
        let PageRows { pieces, rows } = self;
        let mut before = pieces.into_vec();
        let line = before.split_off(start)?;
        let made = PageRows {
            pieces: List::from_vec(before),
            rows,
        };
        made.with_line(alloc, kind, line.as_slice())
    }

    /// The rows of the line of this kind that begins at a place.
    pub fn with_line_from(
        self,
        alloc: Global,
        start: usize,
        kind: LineKind,
    ) -> Result<PageRows<'a>, NoMemory>
        requires line { HasLine start kind self }
        ensures rows { IfOk result (λ r. made_rows r ≡ rows_before start self.entry ++ line_rows kind (items (drop start self.entry.pieces))) }
        ensures made_after { IfOk result (λ r. ArePageRows r) }
    {
        match kind {
            LineKind::Blank => {
                let len = self.pieces.len() - start;
                self.with_row_from(kind, start, 0, len)
            }
            LineKind::Heading | LineKind::List | LineKind::Pre | LineKind::Text => {
                self.with_text_from(start, kind)
            }
            LineKind::TableOpen
            | LineKind::TableEnd
            | LineKind::Caption
            | LineKind::Row
            | LineKind::Cell
            | LineKind::Header
            | LineKind::Rule => self.with_cut_from(alloc, start, kind),
        }
    }

    /// The ends of so many tables that no line ends.
    pub fn with_ends(self, tables: u32) -> Result<PageRows<'a>, NoMemory>
        requires made { ArePageRows self }
        ensures rows { IfOk result (λ r. made_rows r ≡ made_rows self.entry ++ replicate tables unwritten_end) }
        ensures made_after { IfOk result (λ r. ArePageRows r) }
    {
        let mut made = self;
        let mut left = tables;
        while left > 0 {
            made = made.with_end()?;
            left -= 1;
        }
        Ok(made)
    }

    /// The end of a table that no line ends.
    fn with_end(self) -> Result<PageRows<'a>, NoMemory>
        requires made { ArePageRows self }
        ensures rows { IfOk result (λ r. made_rows r ≡ made_rows self.entry ++ unwritten_end ∷ []) }
        ensures made_after { IfOk result (λ r. ArePageRows r) }
    {
        self.with_row(LineKind::TableEnd, &[], &[], &[])
    }
}
