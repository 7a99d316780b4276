// A message's text by its template: a label as it is, and a code where a value stands.
#![tactic(auto, using(text_output::proofs::Clipped::then), unfolding(crate::specs::Fields::shown))]

mod readings;

ghost use Rattle.std.specs.Prelude.{◌≡◌, ◌≤◌, get_or, drop, length};
ghost use Rattle.std.specs.Slice.Iter.{iter_rest};
ghost use Rattle.field_layout.specs.Layout.{text_octets};
ghost use Rattle.text_output.specs.Pages.{Appends};
ghost use Rattle.text_fields.specs.Fields.{unit_shown, reading_shown, quoted, truth, shown};
ghost use Rattle.text_fields.specs.Templates.{scale_of, unit_of, squawk_value, natural_value, short_value, long_value, is_code, label_length, label, from_code, filled};

use field_layout::Text;
use readings::{long_reading, natural_reading, short_reading};
use std::slice::Iter;
use text_output::page::Page;
use text_output::{Base, Printing, Scale};

// What users count in. A bare number is one of degrees, or a plain count.
#[derive(Clone, Copy)]
pub enum Unit {
    Bare,
    Seconds,
    Feet,
    FeetPerMinute,
    Knots,
    Metres,
    MetresPerSecond,
}

// ---- values

fn put_unit(page: &mut Page, unit: Unit)
    ensures { Appends page.old (unit_shown unit) page.new }
{
    match unit {
        Unit::Bare => page.put_nothing(),
        Unit::Seconds => page.put_word(b" seconds"),
        Unit::Feet => page.put_word(b" feet"),
        Unit::FeetPerMinute => page.put_word(b" feet per minute"),
        Unit::Knots => page.put_word(b" knots"),
        Unit::Metres => page.put_word(b" metres"),
        Unit::MetresPerSecond => page.put_word(b" metres per second"),
    }
}

// What a field's number says: nothing, where it is the mark for that; or a number of small units.
fn put_reading(page: &mut Page, scale: Scale, unit: Unit, reading: Option<i64>)
    ensures { Appends page.old (reading_shown scale unit reading) page.new }
{
    match reading {
        None => page.put_word(b"no data"),
        Some(n) => {
            page.put_fixed(scale, n);
            put_unit(page, unit);
        }
    }
}

fn put_quoted(page: &mut Page, octets: &[u8])
    ensures { Appends page.old (shown (quoted octets.now)) page.new }
{
    page.put_octet(b'"');
    page.put_printed(Printing::Escaped, octets);
    page.put_octet(b'"');
}

fn put_truth(page: &mut Page, value: bool)
    ensures { Appends page.old (shown (truth value)) page.new }
{
    if value {
        page.put_word(b"yes");
    } else {
        page.put_word(b"no");
    }
}

fn put_squawk(page: &mut Page, mark: u8, n: u32)
    ensures { Appends page.old (shown (squawk_value mark n)) page.new }
{
    if (mark == b'w') & (n == 65535) {
        page.put_word(b"none");
    } else {
        page.put_padded(Base::Decimal, 4, n as u64);
    }
}

// ---- codes

fn scale_of(code: u8) -> Scale
    ensures { result ≡ scale_of code }
{
    match code {
        b'2' => Scale::Hundredths,
        b'3' => Scale::Thousandths,
        b'7' => Scale::TenMillionths,
        _ => Scale::Ones,
    }
}

fn unit_of(code: u8) -> Unit
    ensures { result ≡ unit_of code }
{
    match code {
        b's' => Unit::Seconds,
        b'k' => Unit::Knots,
        b'm' => Unit::Metres,
        b'v' => Unit::MetresPerSecond,
        _ => Unit::Bare,
    }
}

// What stands behind a code's first octet: what its value is, its scale or how many digits, and its mark for no data. An octet that is not
// there is 0.
#[derive(Clone, Copy)]
struct Code {
    what: u8,
    scale: u8,
    mark: u8,
}

fn code_at(template: &[u8]) -> Code
    ensures { result ≡ record { what = get_or template.now 0 0; scale = get_or template.now 1 0; mark = get_or template.now 2 0 } }
{
    Code {
        what: value_at(template, 0, 0),
        scale: value_at(template, 1, 0),
        mark: value_at(template, 2, 0),
    }
}

// A value, or another one where there is none at the place.
fn value_at<T: Copy>(values: &[T], i: usize, none: T) -> T
    ensures { result ≡ get_or values.now i none }
{
    values.get(i).copied().unwrap_or(none)
}

fn put_natural(page: &mut Page, code: Code, n: u32)
    ensures { Appends page.old (shown (natural_value code.what code.scale code.mark n)) page.new }
{
    match code.what {
        b'n' => page.put_natural(n as u64),
        b'x' => page.put_padded(Base::Hexadecimal, code.scale % 16, n as u64),
        b'q' => put_squawk(page, code.mark, n),
        b'y' => put_truth(page, n == 1),
        b'a' => put_reading(page, Scale::Ones, Unit::Feet, readings::altitude(n)),
        what => {
            let reading = natural_reading(code.mark, n);
            put_reading(page, scale_of(code.scale), unit_of(what), reading);
        }
    }
}

fn put_short(page: &mut Page, code: Code, n: i16)
    ensures { Appends page.old (shown (short_value code.what code.scale code.mark n)) page.new }
{
    match code.what {
        b'r' => put_reading(page, Scale::Ones, Unit::FeetPerMinute, readings::rate(n)),
        b'g' => put_reading(page, Scale::Ones, Unit::Feet, readings::geometric(n)),
        what => {
            let reading = short_reading(code.mark, n);
            put_reading(page, scale_of(code.scale), unit_of(what), reading);
        }
    }
}

fn put_long(page: &mut Page, code: Code, n: i32)
    ensures { Appends page.old (shown (long_value code.what code.scale code.mark n)) page.new }
{
    match code.what {
        b'a' => put_reading(page, Scale::TenMillionths, Unit::Bare, readings::angle(n)),
        what => {
            let reading = long_reading(code.mark, n);
            put_reading(page, scale_of(code.scale), unit_of(what), reading);
        }
    }
}

// The next of some numbers, or another one where none is left.
fn next_or<T: Copy>(values: &mut Iter<'_, T>, none: T) -> T
    ensures gives { result ≡ get_or (iter_rest values.old) 0 none }
    ensures leaves { iter_rest values.new ≡ drop 1 (iter_rest values.old) }
{
    values.next().copied().unwrap_or(none)
}

// What stands behind a code, whose first octet was taken.
fn past_code(template: &[u8]) -> &[u8]
    ensures { result.now ≡ drop 3 template.now }
{
    template.get(3..).unwrap_or(&[])
}

// What a template's codes take, each the next of its own kind, and the octets for its '@'.
#[derive(Clone, Copy, Default)]
pub struct Values<'a> {
    pub naturals: &'a [u32],
    pub shorts: &'a [i16],
    pub longs: &'a [i32],
    pub octets: &'a [u8],
}

fn is_code(octet: u8) -> bool
    ensures { result ≡ is_code octet }
{
    (octet == b'%') | (octet == b'&') | (octet == b'$') | (octet == b'@')
}

// How many octets stand before the next code, or are left.
fn label_length(template: &[u8]) -> usize
    ensures { (result ≡ label_length template.now) × (result ≤ length template.now) }
{
    template
        .iter()
        .position(|octet| is_code(*octet))
        .unwrap_or(template.len())
}

// Puts what stands before the next code, and tells what is left from there on.
fn put_label<'a>(page: &mut Page, template: &'a [u8]) -> &'a [u8]
    ensures shows { Appends page.old (label template.now) page.new }
    ensures leaves { result.now ≡ from_code template.now }
{
    let (label, rest) = template.split_at(label_length(template));
    page.put_word(label);
    rest
}

// A template filled in: a label, then a code, and so on.
pub fn put_fields(page: &mut Page, template: &[u8], values: Values<'_>)
    ensures { Appends page.old (filled 0 template.now values.entry.naturals.now values.entry.shorts.now values.entry.longs.now values.entry.octets.now) page.new }
{
    let mut naturals = values.naturals.iter();
    let mut shorts = values.shorts.iter();
    let mut longs = values.longs.iter();
    let mut rest = template;
    while let Some((code, behind)) = put_label(page, rest).split_first() {
        match *code {
            b'%' => {
                put_natural(page, code_at(behind), next_or(&mut naturals, 0));
                rest = past_code(behind);
            }
            b'&' => {
                put_short(page, code_at(behind), next_or(&mut shorts, 0));
                rest = past_code(behind);
            }
            b'$' => {
                put_long(page, code_at(behind), next_or(&mut longs, 0));
                rest = past_code(behind);
            }
            // '@', the last of the codes.
            _ => {
                put_quoted(page, values.octets);
                rest = behind;
            }
        }
    }
}

// The same with a text for its octets.
pub fn put_named(page: &mut Page, template: &[u8], values: Values<'_>, name: Text)
    ensures { Appends page.old (filled 0 template.now values.entry.naturals.now values.entry.shorts.now values.entry.longs.now (text_octets name)) page.new }
{
    let octets = field_layout::text_octets(name);
    put_fields(
        page,
        template,
        Values {
            octets: &octets,
            ..values
        },
    );
}
