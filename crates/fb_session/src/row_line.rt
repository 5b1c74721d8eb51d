//! The text of a row, as a list of stimuli has it.

ghost use Rattle.std.specs.Prelude.{◌≡◌, ◌++◌, IfOk, OnOk};
ghost use Rattle.fb_session.specs.Giving as spec;

use fb_text::{put_all, put_number, put_value};
use fb_types::{Setting, Stimulus};
use std::alloc::{AllocError, Global};

/// Adds a setting.
fn put_setting(alloc: Global, text: &mut Vec<u8>, setting: &Setting) -> Result<(), AllocError>
    ensures { OnOk result (text.new.items ≡ text.old.items ++ spec.setting_text setting.now) }
{
    put_all(text, &[setting.variable.as_bytes(), b"="])?;
    put_value(alloc, text, setting.value)
}

/// Adds settings, each after a blank.
fn put_more(alloc: Global, text: &mut Vec<u8>, settings: &[Setting]) -> Result<(), AllocError>
    ensures { OnOk result (text.new.items ≡ text.old.items ++ spec.more_text settings.now) }
{
    for setting in settings {
        text.extend_from_slice(b" ")?;
        put_setting(alloc, text, setting)?;
    }
    Ok(())
}

/// Adds settings with a blank between each two.
fn put_settings(alloc: Global, text: &mut Vec<u8>, settings: &[Setting]) -> Result<(), AllocError>
    ensures { OnOk result (text.new.items ≡ text.old.items ++ spec.settings_text settings.now) }
{
    match settings {
        [] => Ok(()),
        [first, others @ ..] => {
            put_setting(alloc, text, first)?;
            put_more(alloc, text, others)
        }
    }
}

/// The line of a stimulus, without a line feed: `104,GATE.ARRIVE,ARRIVED=1`. No field needs quotes.
pub fn row_text(alloc: Global, stimulus: &Stimulus) -> Result<Vec<u8>, AllocError>
    ensures { IfOk result (λ t. t.items ≡ spec.row_text stimulus.now) }
{
    let mut text = Vec::new(alloc);
    put_number(alloc, &mut text, stimulus.tick)?;
    put_all(
        &mut text,
        &[
            b",",
            stimulus.instance.as_bytes(),
            b".",
            stimulus.event.as_bytes(),
            b",",
        ],
    )?;
    put_settings(alloc, &mut text, stimulus.settings.as_slice())?;
    Ok(text)
}
