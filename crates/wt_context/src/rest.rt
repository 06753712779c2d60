//! Tokens that are taken from the front.

ghost use Rattle.std.specs.Prelude.{◌≡◌, ◌<◌, ◌≤◌, ◌-◌, ◌++◌, [], None, length, take, drop, MatchOption, IfOk};
ghost use Rattle.wt_span.specs.Items.{items};
ghost use Rattle.wt_inline.specs.Grown.{growth, Grows};
ghost use Rattle.wt_context.specs.Segments.{segment_items, segment_parts};
ghost use Rattle.wt_context.specs.Tokens.{token_segments, segments_of, rest_segments};

use crate::stretch::Quotes;
use crate::token::Token;
use std::alloc::Global;
use std::vec::IntoIter;
use wt_inline::Children;
use wt_span::{List, NoMemory, Piece};

/// What is left of tokens: apostrophes of one that was cut, and the tokens after it.
#[derive(Drop)]
pub struct Rest<'a> {
    quotes: Option<Quotes<'a>>,
    tokens: IntoIter<Token<'a>>,
}

impl<'a> Rest<'a> {
    /// All of these tokens.
    pub fn of(tokens: List<Token<'a>>) -> Rest<'a>
        ensures { rest_segments result ≡ segments_of tokens.entry }
    {
        Rest {
            quotes: None,
            tokens: tokens.into_vec().into_iter(),
        }
    }

    /// The next token, and what is left after it.
    fn next(self) -> (Option<Token<'a>>, Rest<'a>)
        ensures value { MatchOption result.0 (rest_segments self.entry ≡ []) (λ t. rest_segments self.entry ≡ token_segments t ++ rest_segments result.1) }
        ensures none { MatchOption result.0 (rest_segments result.1 ≡ []) (λ t. result.1.quotes ≡ None) }
    {
        let Rest { quotes, mut tokens } = self;
        if let Some(quotes) = quotes {
            return (
                Some(Token::Quotes(quotes)),
                Rest {
                    quotes: None,
                    tokens,
                },
            );
        }
        let token = tokens.next();
        (
            token,
            Rest {
                quotes: None,
                tokens,
            },
        )
    }

    /// The next token, of which no more than n segments are taken, and what is left after them.
    fn take(self, n: usize) -> (Option<Token<'a>>, Rest<'a>)
        requires { 0 < n }
        ensures value { MatchOption result.0 (rest_segments self.entry ≡ []) (λ t. rest_segments self.entry ≡ token_segments t ++ rest_segments result.1) }
        ensures few { MatchOption result.0 (rest_segments result.1 ≡ []) (λ t. length (token_segments t) ≤ n) }
    {
        let (token, rest) = self.next();
        let Some(token) = token else {
            return (None, rest);
        };
        let (front, quotes) = token.split_at(n);
        let Rest { tokens, .. } = rest;
        (Some(front), Rest { quotes, tokens })
    }

    /// The first n segments as children of a node after others, and what is left.
    pub fn onto(
        self,
        alloc: Global,
        children: Children<'a>,
        n: usize,
    ) -> Result<(Children<'a>, Rest<'a>), NoMemory>
        ensures front { IfOk result (λ r. Grows (growth children.entry) (segment_parts (take n (rest_segments self.entry))) (growth r.0)) }
        ensures back { IfOk result (λ r. rest_segments r.1 ≡ drop n (rest_segments self.entry)) }
    {
        let mut children = children;
        let mut rest = self;
        let mut left = n;
        while left > 0 {
            let (token, after) = rest.take(left);
            rest = after;
            let Some(token) = token else {
                return Ok((children, rest));
            };
            left -= token.len();
            children = token.onto(alloc, children)?;
        }
        Ok((children, rest))
    }

    /// The pieces of the first n segments, and what is left.
    pub fn pieces(self, alloc: Global, n: usize) -> Result<(List<Piece<'a>>, Rest<'a>), NoMemory>
        ensures front { IfOk result (λ r. items r.0 ≡ segment_items (take n (rest_segments self.entry))) }
        ensures back { IfOk result (λ r. rest_segments r.1 ≡ drop n (rest_segments self.entry)) }
    {
        let mut pieces = List::new(alloc);
        let mut rest = self;
        let mut left = n;
        while left > 0 {
            let (token, after) = rest.take(left);
            rest = after;
            let Some(token) = token else {
                return Ok((pieces, rest));
            };
            left -= token.len();
            token.push_pieces(&mut pieces)?;
        }
        Ok((pieces, rest))
    }
}
