//! Ports with stars in patterns: `LANE*.X`, `*.OVERRUN`.

ghost use Rattle.std.specs.Prelude.{◌≡◌, nat_eq};
ghost use Rattle.std.specs.List.{list_all, slice_split};
ghost use Rattle.fb_expect.specs.Stars as spec;

use crate::names::{are_words, has_stop, is_name};
use crate::words::split_at_mark;

/// Whether a text is a name, or one with a star in place of some of its characters.
fn is_star_name(text: &[u8]) -> bool
    ensures { result ≡ spec.is_star_name text.now }
{
    match split_at_mark(text, b'*') {
        Some((front, end)) => (front.is_empty() || is_name(front)) && are_words(end),
        None => is_name(text),
    }
}

/// Whether names in which stars may be are in a text, with a full stop between each and the next.
fn are_star_names(text: &[u8]) -> bool
    ensures { result ≡ list_all spec.is_star_name (slice_split (nat_eq 46) text.now) }
{
    let mut rest = text;
    while let Some((name, after)) = split_at_mark(rest, b'.') {
        if !is_star_name(name) {
            return false;
        }
        rest = after;
    }
    is_star_name(rest)
}

/// Whether a text is a port in which stars may be.
pub(crate) fn is_star_port(text: &[u8]) -> bool
    ensures { result ≡ spec.is_star_port text.now }
{
    has_stop(text) && are_star_names(text)
}

/// Whether a name has a form.
fn fits_name(form: &[u8], name: &[u8]) -> bool
    ensures { result ≡ spec.fits_name form.now name.now }
{
    match split_at_mark(form, b'*') {
        Some((front, end)) => {
            front.len() + end.len() <= name.len() && name.starts_with(front) && name.ends_with(end)
        }
        None => name == form,
    }
}

/// Whether a text is a star alone.
fn is_star(text: &[u8]) -> bool
    ensures { result ≡ spec.is_star text.now }
{
    text == b"*".as_slice()
}

/// Whether the names of a text have the forms of another, one by one. A last star is for one name or more.
fn fits(form: &[u8], port: &[u8]) -> bool
    ensures { result ≡ spec.fits (slice_split (nat_eq 46) form.now) (slice_split (nat_eq 46) port.now) }
{
    let mut forms = form;
    let mut names = port;
    while let Some((one, later)) = split_at_mark(forms, b'.') {
        let Some((name, after)) = split_at_mark(names, b'.') else {
            return false;
        };
        if !fits_name(one, name) {
            return false;
        }
        forms = later;
        names = after;
    }
    match split_at_mark(names, b'.') {
        Some(_) => is_star(forms),
        None => fits_name(forms, names),
    }
}

/// Whether the names after one or more of a text have the forms.
fn fits_later(form: &[u8], port: &[u8]) -> bool
    ensures { result ≡ spec.fits_later (slice_split (nat_eq 46) form.now) (slice_split (nat_eq 46) port.now) }
{
    let mut rest = port;
    while let Some((_, after)) = split_at_mark(rest, b'.') {
        if fits(form, after) {
            return true;
        }
        rest = after;
    }
    false
}

/// Whether a port has the form of a pattern with stars.
pub(crate) fn has_form(form: &[u8], port: &[u8]) -> bool
    ensures { result ≡ spec.has_form form.now port.now }
{
    match split_at_mark(form, b'.') {
        Some((first, later)) => {
            if is_star(first) {
                fits_later(later, port)
            } else {
                fits(form, port)
            }
        }
        None => fits(form, port),
    }
}
