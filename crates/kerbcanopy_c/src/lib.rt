// Kerbcanopy's public entries, as C finds them: `include/kerbcanopy.h` declares each under the same name. Each hands on to the entry of its
// name in `kerbcanopy`, where what it answers is told, and states the same contract. A slice is a pointer and a length to C; a struct is
// the header's of the same fields, and goes out by value.
#![tactic(auto)]

mod book;
mod lent;
mod version;

ghost use Rattle.std.specs.Prelude.{◌≡◌};
ghost use Rattle.descriptor.specs.Answers.{descriptor_check, with_table};
ghost use Rattle.canonical.specs.Equality.{comparison};
ghost use Rattle.canonical.specs.Normal.{normal_form};
ghost use Rattle.flattened.specs.Answers.{data_check};
ghost use Rattle.access.specs.Path.{located};
ghost use Rattle.reading.specs.Values.{read_value, value_kind, value_bits};
ghost use Rattle.byte_order.specs.Reversal.{to_little_endian, from_little_endian};
ghost use Rattle.resolution.specs.Record.{resolved};
ghost use Rattle.timestamp.specs.Difference.{difference};

use access::part::Part;
use canonical::Compared;
use descriptor::answer::{Answer, Checked};
use kerbcanopy::ValueRead;
use timestamp::Difference;

#[unsafe(no_mangle)]
pub extern "C" fn kc_check_descriptor(descriptor: &[u8]) -> Checked
    ensures { result ≡ with_table (descriptor_check descriptor.now) }
{
    kerbcanopy::kc_check_descriptor(descriptor)
}

#[unsafe(no_mangle)]
pub extern "C" fn kc_compare(first: &[u8], second: &[u8]) -> Compared
    ensures { result ≡ comparison first.now second.now }
{
    kerbcanopy::kc_compare(first, second)
}

#[unsafe(no_mangle)]
pub extern "C" fn kc_normal_form(descriptor: &[u8], out: &mut [u8]) -> Answer
    ensures answer { result ≡ (normal_form descriptor.now out.old).answer }
    ensures wrote { out.new ≡ (normal_form descriptor.now out.old).out }
{
    kerbcanopy::kc_normal_form(descriptor, out)
}

#[unsafe(no_mangle)]
pub extern "C" fn kc_check_data(descriptor: &[u8], data: &[u8]) -> Answer
    ensures { result ≡ data_check descriptor.now «data».now }
{
    kerbcanopy::kc_check_data(descriptor, data)
}

#[unsafe(no_mangle)]
pub extern "C" fn kc_view(descriptor: &[u8], data: &[u8], path: &[u32]) -> Part
    ensures { result ≡ located descriptor.now «data».now path.now }
{
    kerbcanopy::kc_view(descriptor, data, path)
}

#[unsafe(no_mangle)]
pub extern "C" fn kc_read_value(descriptor: &[u8], data: &[u8], path: &[u32]) -> ValueRead
    ensures answer { result.answer ≡ (read_value descriptor.now «data».now path.now).answer }
    ensures kind { result.kind ≡ value_kind (read_value descriptor.now «data».now path.now).value }
    ensures bits { result.bits ≡ value_bits (read_value descriptor.now «data».now path.now).value }
{
    kerbcanopy::kc_read_value(descriptor, data, path)
}

#[unsafe(no_mangle)]
pub extern "C" fn kc_to_little_endian(descriptor: &[u8], data: &[u8], out: &mut [u8]) -> Answer
    ensures answer { result ≡ (to_little_endian descriptor.now «data».now out.old).answer }
    ensures wrote { out.new ≡ (to_little_endian descriptor.now «data».now out.old).out }
{
    kerbcanopy::kc_to_little_endian(descriptor, data, out)
}

#[unsafe(no_mangle)]
pub extern "C" fn kc_from_little_endian(descriptor: &[u8], data: &[u8], out: &mut [u8]) -> Answer
    ensures answer { result ≡ (from_little_endian descriptor.now «data».now out.old).answer }
    ensures wrote { out.new ≡ (from_little_endian descriptor.now «data».now out.old).out }
{
    kerbcanopy::kc_from_little_endian(descriptor, data, out)
}

#[unsafe(no_mangle)]
pub extern "C" fn kc_read_record(
    writer: &[u8],
    reader: &[u8],
    data: &[u8],
    out: &mut [u8],
) -> Answer
    ensures answer { result ≡ (resolved writer.now reader.now «data».now out.old).answer }
    ensures wrote { out.new ≡ (resolved writer.now reader.now «data».now out.old).out }
{
    kerbcanopy::kc_read_record(writer, reader, data, out)
}

#[unsafe(no_mangle)]
pub extern "C" fn kc_stamp_difference(
    first_seconds_high: i32,
    first_seconds_low: i32,
    first_fraction_high: u32,
    first_fraction_low: u32,
    second_seconds_high: i32,
    second_seconds_low: i32,
    second_fraction_high: u32,
    second_fraction_low: u32,
) -> Difference
    ensures { result ≡ difference first_seconds_high first_seconds_low first_fraction_high first_fraction_low second_seconds_high second_seconds_low second_fraction_high second_fraction_low }
{
    kerbcanopy::kc_stamp_difference(
        first_seconds_high,
        first_seconds_low,
        first_fraction_high,
        first_fraction_low,
        second_seconds_high,
        second_seconds_low,
        second_fraction_high,
        second_fraction_low,
    )
}
