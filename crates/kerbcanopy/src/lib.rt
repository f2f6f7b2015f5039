// Kerbcanopy's public entries. C finds each under the same name, in `kerbcanopy_c`, as `include/kerbcanopy.h` declares it. Every entry takes
// any bytes, asks nothing of its caller, and answers exactly what the definition that its contract cites says, refusals included.
#![tactic(auto)]

pub mod book;
pub mod lent;
pub mod version;

ghost use Rattle.std.specs.Prelude.{◌≡◌};
ghost use Rattle.descriptor.specs.Answers.{descriptor_check, with_table};
ghost use Rattle.canonical.specs.Equality.{comparison};
ghost use Rattle.canonical.specs.Normal.{normal_form};
ghost use Rattle.flattened.specs.Answers.{data_check};
ghost use Rattle.access.specs.Path.{located};
ghost use Rattle.reading.specs.Values.{read_value, value_kind, value_bits};
ghost use Rattle.byte_order.specs.Reversal.{to_little_endian, from_little_endian};
ghost use Rattle.resolution.specs.Record.{resolved};
ghost use Rattle.timestamp.specs.Difference.{difference};

use access::part::Part;
use canonical::Compared;
use descriptor::answer::{Answer, Checked};
use reading::value::{value_bits, value_kind};
use timestamp::Difference;

// Reads any bytes as a descriptor. Accepted: number 0, input 0, the place is the row count, and the table has a row for each descriptor
// in order of first byte, zero rows after them. Refused: the number 1 to 12 that comes first in document 01's order, input 1, its place
// (of 5 and 8 to 11 by document 02's CR 3), and a table of zero rows.
pub fn kc_check_descriptor(descriptor: &[u8]) -> Checked
    ensures { result ≡ with_table (descriptor_check descriptor.now) }
{
    tabulation::check::check_descriptor(descriptor)
}

// Whether two descriptors are equal: the same tree, low codes, counts, items, pairs and names; "Only the reserved byte is ignored."
// Accepted: number 0, input 0, place 0, and yes or no. Refused: 1 to 12, its place, and no; input 1 where the first is no descriptor,
// else input 2.
pub fn kc_compare(first: &[u8], second: &[u8]) -> Compared
    ensures { result ≡ comparison first.now second.now }
{
    canonical::compare::compare(first, second)
}

// Writes the normal form of the descriptor, "the same descriptor with every reserved byte zero", to the front of `out`, and keeps the
// bytes of `out` beyond it. Accepted: number 0, input 0, and the place is the length written, that of the descriptor. Refused: 1 to 12
// with input 1 where it is no descriptor; else 50 with input 4 where `out` is shorter than it, the place being the length needed. A
// refusal writes nothing.
pub fn kc_normal_form(descriptor: &[u8], out: &mut [u8]) -> Answer
    ensures answer { result ≡ (normal_form descriptor.now out.old).answer }
    ensures wrote { out.new ≡ (normal_form descriptor.now out.old).out }
{
    canonical::normal::normal_form(descriptor, out)
}

// Reads any bytes as data of the descriptor's type. Accepted: number 0, input 0, and the place is the piece count. Refused: the
// descriptor's 1 to 12 with input 1; else with input 3 the number 20 to 23 or 25 that comes first in document 01's order, and its place:
// 0 for 20, the first byte left over for 25, for the others the start of the piece at fault.
pub fn kc_check_data(descriptor: &[u8], data: &[u8]) -> Answer
    ensures { result ≡ data_check descriptor.now «data».now }
{
    walking::check::check_data(descriptor, data)
}

// The answer to a reading, with the value's kind and bits, as C takes them.
#[repr(C)]
#[derive(Clone, Copy)]
pub struct ValueRead {
    pub answer: Answer,
    pub kind: u32,
    pub bits: u64,
}

// Finds the part of the data at a path of steps: "a member number in a cluster, a flat element number in an array, counted from 0; the
// empty path is the whole data". Accepted: number 0, input 0, place 0, and where the part starts and how long it is, length and size
// words included. Refused: as by the data check, the whole data before the path; else 30 with input 4, the place being the number of the
// step at fault, counted from 0; start and length are then 0.
pub fn kc_view(descriptor: &[u8], data: &[u8], path: &[u32]) -> Part
    ensures { result ≡ located descriptor.now «data».now path.now }
{
    access::part::locate(descriptor, data, path)
}

// Reads the number at a path, the steps being those of the view. Accepted: number 0, input 0, place 0, and the kind, 1 unsigned, 2 signed,
// 3 single, 4 double, 5 flag, with the bits: a signed number's as the two's complement of 64 bits, a single's as the low 32. Refused: as
// by the view; else 31 with input 4 and place 0 where the path leads to no single number; kind and bits are then 0.
pub fn kc_read_value(descriptor: &[u8], data: &[u8], path: &[u32]) -> ValueRead
    ensures answer { result.answer ≡ (read_value descriptor.now «data».now path.now).answer }
    ensures kind { result.kind ≡ value_kind (read_value descriptor.now «data».now path.now).value }
    ensures bits { result.bits ≡ value_bits (read_value descriptor.now «data».now path.now).value }
{
    let reading = reading::reading::read_value(descriptor, data, path);
    let answer = reading.answer;
    let value = reading.value;
    let kind = value_kind(value);
    let bits = value_bits(value);
    ValueRead { answer, kind, bits }
}

// Writes the little-endian form of the data to the front of `out`, "the same layout with the bytes of each number reversed in place", and
// keeps the bytes of `out` beyond it. Accepted: number 0, input 0, and the place is the length written, that of the data. Refused: as by
// the data check; else 50 with input 4 where `out` is shorter than the data, the place being the length needed. A refusal writes nothing.
pub fn kc_to_little_endian(descriptor: &[u8], data: &[u8], out: &mut [u8]) -> Answer
    ensures answer { result ≡ (to_little_endian descriptor.now «data».now out.old).answer }
    ensures wrote { out.new ≡ (to_little_endian descriptor.now «data».now out.old).out }
{
    little::to_little_endian(descriptor, data, out)
}

// Writes the data whose little-endian form `data` is to the front of `out`. Its refusals are those of the data check with lengths, sizes
// and enumerations read little-endian; the rest is as for the form.
pub fn kc_from_little_endian(descriptor: &[u8], data: &[u8], out: &mut [u8]) -> Answer
    ensures answer { result ≡ (from_little_endian descriptor.now «data».now out.old).answer }
    ensures wrote { out.new ≡ (from_little_endian descriptor.now «data».now out.old).out }
{
    little::from_little_endian(descriptor, data, out)
}

// Reads the rig's data in the reader's shape: writes "the reader's members' bytes joined, in the reader's order" to the front of `out`, and
// keeps the bytes of `out` beyond them. `writer` is the rig's descriptor and `data` its record, `reader` the reader's descriptor. Accepted:
// number 0, input 0, and the place is the length written. Refused, in this order: the rig's descriptor with 1 to 12 and input 1, the
// reader's with input 2, the data as by the data check with input 3; 40 with input 2 where the reader's top is no cluster, place 0, or a
// member's name is missing, empty or an earlier member's, the place being the member; 41 with input 1 and place 0 where the rig's top is no
// cluster; for the first reader's member at fault, with input 2 and the member as the place, 42 where the rig has none of its name, 43 where
// it has several, 44 where it has one of another type; 50 with input 4 where `out` is too small, the place being the length needed. A
// refusal writes nothing.
pub fn kc_read_record(writer: &[u8], reader: &[u8], data: &[u8], out: &mut [u8]) -> Answer
    ensures answer { result ≡ (resolved writer.now reader.now «data».now out.old).answer }
    ensures wrote { out.new ≡ (resolved writer.now reader.now «data».now out.old).out }
{
    records::reading::read_record(writer, reader, data, out)
}

// The first time stamp less the second, exactly; each is given as its four integers. Accepted: number 0, input 0, place 0, and seconds and
// fraction, the fraction from 0 up to one second, in units of 2^-64. Refused: 32 with input 4 and place 0 where 64 signed bits don't hold the
// seconds; seconds and fraction are then 0.
pub fn kc_stamp_difference(
    first_seconds_high: i32,
    first_seconds_low: i32,
    first_fraction_high: u32,
    first_fraction_low: u32,
    second_seconds_high: i32,
    second_seconds_low: i32,
    second_fraction_high: u32,
    second_fraction_low: u32,
) -> Difference
    ensures { result ≡ difference first_seconds_high first_seconds_low first_fraction_high first_fraction_low second_seconds_high second_seconds_low second_fraction_high second_fraction_low }
{
    timestamp::stamp_difference(
        first_seconds_high,
        first_seconds_low,
        first_fraction_high,
        first_fraction_low,
        second_seconds_high,
        second_seconds_low,
        second_fraction_high,
        second_fraction_low,
    )
}
