//! The content from the left to the right.

ghost use Rattle.std.specs.Prelude.{◌≡◌, ◌++◌, IfOk, OnOk, ℕ, List, string_bytes};
ghost use Rattle.wt_guards.specs.Content.{ContentSign as AnySign};
ghost use Rattle.wt_guards.specs.Guards.{nowiki, nowiki_if, is_guarded, sign_written, spelled};
ghost use Rattle.wt_guards.specs.Views.{sign_of, signs_left, all_signs, setting_of, IsBehind, Knows, Steps};

use crate::behind::Behind;
use crate::guards::{Setting, is_guarded, keep, learn};
use crate::letters::push_letter;
use crate::signs::{ContentSign, Signs, Unit};
use std::alloc::{AllocError, Global};

/// Appends `<nowiki/>`.
#[tactic(auto, unfolding(crate::specs::Guards::nowiki))]
pub fn push_nowiki(out: &mut String) -> Result<(), AllocError>
    ensures { OnOk result (string_bytes out.new ≡ string_bytes out.old ++ nowiki) }
{
    out.push_str("<nowiki/>")
}

/// Appends what keeps two signs apart, where it is asked for.
pub fn push_nowiki_if(out: &mut String, is_guarded: bool) -> Result<(), AllocError>
    ensures { OnOk result (string_bytes out.new ≡ string_bytes out.old ++ nowiki_if is_guarded) }
{
    if is_guarded {
        push_nowiki(out)?;
    }
    Ok(())
}

/// Appends what is put at a place.
fn push_guard(
    out: &mut String,
    setting: Setting<'_>,
    behind: Behind<'_>,
    after: Signs<'_, '_>,
    known: Option<bool>,
) -> Result<(), AllocError>
    requires { Knows known (signs_left after) }
    ensures { (before : List AnySign) → IsBehind setting.entry.source.now before behind.entry
        → OnOk result (string_bytes out.new ≡ string_bytes out.old ++ nowiki_if (is_guarded (setting_of setting.entry) before (signs_left after.entry))) }
{
    let is_guarded = is_guarded(setting, behind, after, known);
    push_nowiki_if(out, is_guarded)
}

/// Appends a sign as it is written, by what comes before and after it.
fn push_sign(
    out: &mut String,
    setting: Setting<'_>,
    behind: Behind<'_>,
    sign: ContentSign<'_>,
    after: Signs<'_, '_>,
) -> Result<(), AllocError>
    ensures { (before : List AnySign) → IsBehind setting.entry.source.now before behind.entry
        → OnOk result (string_bytes out.new ≡ string_bytes out.old ++ sign_written (setting_of setting.entry) before (sign_of sign.entry)
        (signs_left after.entry)) }
{
    match sign {
        ContentSign::Letter(c) => push_letter(out, setting.within, setting.place, behind, c, after),
        ContentSign::Thing(thing) => out.push_str(thing.source.as_str()),
    }
}

/// The way through the content: what is known of the signs before a place, those after it, and what
/// may be known of these.
#[derive(Clone, Copy)]
pub struct ContentWalk<'u, 't> {
    pub behind: Behind<'u>,
    pub rest: Signs<'u, 't>,
    pub known: Option<bool>,
}

/// Appends what is put at the place and the next sign, where there is one, and goes on after it.
fn step<'u, 't>(
    out: &mut String,
    setting: Setting<'_>,
    walk: ContentWalk<'u, 't>,
) -> Result<Option<ContentWalk<'u, 't>>, AllocError>
    requires { Knows walk.known (signs_left walk.rest) }
    ensures { (before : List AnySign) → IsBehind setting.entry.source.now before walk.entry.behind
        → Steps (setting_of setting.entry) before (signs_left walk.entry.rest) (string_bytes out.old) (string_bytes out.new) result }
{
    let known = learn(walk.known, walk.behind, walk.rest);
    push_guard(out, setting, walk.behind, walk.rest, known)?;
    match walk.rest.split_first() {
        Some((sign, after)) => {
            push_sign(out, setting, walk.behind, sign, after)?;
            let next = ContentWalk {
                behind: walk.behind.after(setting.source, sign),
                rest: after,
                known: keep(known, sign),
            };
            Ok(Some(next))
        }
        None => Ok(None),
    }
}

/// Appends the spelling of the signs.
fn push_spelled(
    out: &mut String,
    setting: Setting<'_>,
    signs: Signs<'_, '_>,
) -> Result<(), AllocError>
    ensures { OnOk result (string_bytes out.new ≡ string_bytes out.old ++ spelled (setting_of setting.entry) (signs_left signs.entry)) }
{
    let mut walk = ContentWalk {
        behind: Behind::start(setting.source),
        rest: signs,
        known: None,
    };
    while let Some(next) = step(out, setting, walk)? {
        walk = next;
    }
    Ok(())
}

/// The content that these units are, as wikitext, in UTF-8.
pub fn spelling_of(
    alloc: Global,
    setting: Setting<'_>,
    units: &[Unit<'_>],
) -> Result<String, AllocError>
    ensures { IfOk result (λ s. string_bytes s ≡ spelled (setting_of setting.entry) (all_signs units.now)) }
{
    let mut out = String::new(alloc);
    push_spelled(&mut out, setting, Signs::of(units))?;
    Ok(out)
}
