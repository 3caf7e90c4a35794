// Reads a line of a log.
ghost use Rattle.std.specs.Prelude.{◌≡◌};
ghost use Rattle.window_log.specs.Events.{word, behind, field_in, flag_in, sent_in, past_in, event_in};

use crate::event::{Event, Fault, Field, Past};
use measurements::number::parse;
use measurements::parts::split_once;

// The first word, and what stands behind its space.
fn split_word(text: &[u8]) -> (&[u8], &[u8])
    ensures first { result.0.now ≡ word text.now }
    ensures rest { result.1.now ≡ behind text.now }
{
    split_once(text, b' ').unwrap_or((text, &[]))
}

fn number(field: Field, text: &[u8]) -> Result<u64, Fault>
    ensures { result ≡ field_in field text.now }
{
    parse(text).map_err(|fault| Fault::Number(field, fault))
}

fn flag(name: &[u8], text: &[u8]) -> Result<bool, Fault>
    ensures { result ≡ flag_in name.now text.now }
{
    if text.is_empty() {
        Ok(false)
    } else if text == name {
        Ok(true)
    } else {
        Err(Fault::Flag)
    }
}

fn sent(text: &[u8]) -> Result<Event, Fault>
    ensures { result ≡ sent_in text.now }
{
    let (size, time) = split_word(text);
    let bytes = number(Field::Size, size)?;
    let time = number(Field::Time, time)?;
    Ok(Event::Sent { bytes, time })
}

fn past(name: &[u8], text: &[u8]) -> Result<Past, Fault>
    ensures { result ≡ past_in name.now text.now }
{
    let (size, rest) = split_word(text);
    let bytes = number(Field::Size, size)?;
    let (sent, rest) = split_word(rest);
    let sent = number(Field::SentTime, sent)?;
    let (time, rest) = split_word(rest);
    let time = number(Field::Time, time)?;
    let flagged = flag(name, rest)?;
    Ok(Past {
        bytes,
        sent,
        time,
        flagged,
    })
}

/// Reads a line, its newline taken off.
pub fn event(line: &[u8]) -> Result<Event, Fault>
    ensures { result ≡ event_in line.now }
{
    let (word, rest) = split_word(line);
    match word {
        b"sent" => sent(rest),
        b"ack" => past(b"app-limited", rest).map(Event::Acked),
        b"lost" => past(b"persistent", rest).map(Event::Lost),
        b"end" => number(Field::Time, rest).map(|time| Event::End { time }),
        b"mtu" => number(Field::Size, rest).map(|size| Event::Resized { size }),
        _ => Err(Fault::Kind),
    }
}
