//! One pass over the text calls of the page, which says of the blocks one after the other whether they touch one.

ghost use Rattle.std.specs.Prelude.{◌≡◌, ◌<◌, ◌≤◌, ◌+◌, ◌^◌, List, length, map, drop, false, max, nat_lt, slice_index_or, if◌then◌else◌};
ghost use Rattle.std.specs.List.{list_any};
ghost use Rattle.wt_span.specs.Origins.{AreInOrder, Span, span_of};
ghost use Rattle.wt_isolation.specs.Passes.{ArePassed};
ghost use Rattle.wt_isolation.specs.TextCalls.{share_byte, touches_text_call};
ghost use Rattle.wt_tree.specs.declared.kind.Ranges.{Ranges as Block};

use wt_span::Range;
use wt_tree::Ranges;

/// How many text calls were passed, the greatest end of those that hold a byte, and a place before which all
/// of them begin.
#[derive(Clone, Copy)]
pub struct CallPass {
    passed: usize,
    furthest: u32,
    reached: u32,
}

impl CallPass {
    /// Before the first call.
    pub fn start() -> CallPass
        ensures passed { (calls : List Span) → ArePassed calls result }
        ensures reached { result.reached ≡ 0 }
    {
        CallPass {
            passed: 0,
            furthest: 0,
            reached: 0,
        }
    }

    /// Before the first call, if calls after this place may have been passed.
    fn not_past(self, place: u32) -> CallPass
        ensures passed { (calls : List Span) → ArePassed calls self → ArePassed calls result }
        ensures before { result.reached ≤ place }
    {
        if place < self.reached {
            return CallPass::start();
        }
        self
    }

    /// For blocks that end at this place or after it.
    fn reaching(self, place: u32) -> CallPass
        ensures passed { (calls : List Span) → ArePassed calls self → ArePassed calls result }
        ensures reached { result.reached ≡ place }
    {
        let pass = self.not_past(place);
        CallPass {
            passed: pass.passed,
            furthest: pass.furthest,
            reached: place,
        }
    }

    /// The greatest end of the calls that were passed and one more, if it holds a byte.
    fn furthest_with(self, call: Range) -> u32
        ensures { result ≡ (if nat_lt call.start call.end then max self.furthest call.end else self.furthest) }
    {
        if call.start < call.end {
            return self.furthest.max(call.end);
        }
        self.furthest
    }

    /// Past one more call, which begins before the place that was reached.
    fn with(self, call: Range) -> CallPass
        requires more { self.passed + 1 < 2 ^ 64 }
        requires before { call.start < self.reached }
        ensures count { result.passed ≡ self.passed + 1 }
        ensures reached { result.reached ≡ self.reached }
        ensures passed { (calls : List Span) → ArePassed calls self → self.passed < length calls
            → span_of call ≡ slice_index_or calls self.passed (span_of call) → ArePassed calls result }
    {
        CallPass {
            passed: self.passed + 1,
            furthest: self.furthest_with(call),
            reached: self.reached,
        }
    }

    /// Past all calls that begin before a place.
    fn up_to(self, calls: &[Range], place: u32) -> CallPass
        requires passed { ArePassed (map span_of calls.now) self }
        requires in_order { AreInOrder (map span_of calls.now) }
        ensures passed_after { ArePassed (map span_of calls.now) result }
        ensures reached { result.reached ≡ place }
        ensures left { (block : Block) → block.end ≡ place → list_any (λ s. share_byte s block) (drop result.passed (map span_of calls.now)) ≡ false }
    {
        let mut pass = self.reaching(place);
        let first = pass.passed;
        for i in first..calls.len() {
            let call = calls[i];
            if call.start >= place {
                return pass;
            }
            pass = pass.with(call);
        }
        pass
    }

    /// Whether a block that is here touches one of these calls. Goes on to the block, from the first call
    /// on if it was past it.
    pub fn touches(&mut self, calls: &[Range], block: Option<Ranges>) -> bool
        requires passed { ArePassed (map span_of calls.now) self.old }
        requires in_order { AreInOrder (map span_of calls.now) }
        ensures value { result ≡ touches_text_call (map span_of calls.now) block }
        ensures passed_after { ArePassed (map span_of calls.now) self.new }
    {
        let Some(block) = block else {
            return false;
        };
        if block.start >= block.end {
            return false;
        }
        let pass = self.up_to(calls, block.end);
        *self = pass;
        block.start < pass.furthest
    }
}
