// The questions again for callers that can't take a struct: the answer goes to three lent numbers, number, input and place, and what else
// a question has to numbers of its own. An array that is lent is a pointer to its first number.
ghost use Rattle.std.specs.Prelude.{◌≡◌};
ghost use Rattle.descriptor.specs.Answers.{descriptor_check};
ghost use Rattle.canonical.specs.Equality.{comparison};
ghost use Rattle.canonical.specs.Normal.{normal_form};
ghost use Rattle.flattened.specs.Answers.{data_check};
ghost use Rattle.access.specs.Path.{located};
ghost use Rattle.reading.specs.Values.{read_value, value_kind, value_bits};
ghost use Rattle.byte_order.specs.Reversal.{to_little_endian, from_little_endian};
ghost use Rattle.resolution.specs.Record.{resolved};
ghost use Rattle.timestamp.specs.Difference.{difference};
ghost use Rattle.store.specs.Check.{book_check};
ghost use Rattle.store.specs.Questions.{found, listed, added};
ghost use Rattle.layout.specs.Numbers.{answer_numbers, table_numbers, truth};

#[unsafe(no_mangle)]
pub extern "C" fn kc_check_descriptor_into(
    descriptor: &[u8],
    answer: &mut [u32; 3],
    table: &mut [u16; 1792],
)
    ensures answer { answer.new ≡ answer_numbers (descriptor_check descriptor.now).answer }
    ensures table { table.new ≡ table_numbers (descriptor_check descriptor.now).rows }
{
    kerbcanopy::lent::kc_check_descriptor_into(descriptor, answer, table)
}

#[unsafe(no_mangle)]
pub extern "C" fn kc_compare_into(
    first: &[u8],
    second: &[u8],
    answer: &mut [u32; 3],
    equal: &mut u8,
)
    ensures answer { answer.new ≡ answer_numbers (comparison first.now second.now).answer }
    ensures equal { equal.new ≡ truth (comparison first.now second.now).equal }
{
    kerbcanopy::lent::kc_compare_into(first, second, answer, equal)
}

#[unsafe(no_mangle)]
pub extern "C" fn kc_normal_form_into(descriptor: &[u8], out: &mut [u8], answer: &mut [u32; 3])
    ensures answer { answer.new ≡ answer_numbers (normal_form descriptor.now out.old).answer }
    ensures wrote { out.new ≡ (normal_form descriptor.now out.old).out }
{
    kerbcanopy::lent::kc_normal_form_into(descriptor, out, answer)
}

#[unsafe(no_mangle)]
pub extern "C" fn kc_check_data_into(descriptor: &[u8], data: &[u8], answer: &mut [u32; 3])
    ensures { answer.new ≡ answer_numbers (data_check descriptor.now «data».now) }
{
    kerbcanopy::lent::kc_check_data_into(descriptor, data, answer)
}

#[unsafe(no_mangle)]
pub extern "C" fn kc_view_into(
    descriptor: &[u8],
    data: &[u8],
    path: &[u32],
    answer: &mut [u32; 3],
    start: &mut u64,
    length: &mut u64,
)
    ensures answer { answer.new ≡ answer_numbers (located descriptor.now «data».now path.now).answer }
    ensures start { start.new ≡ (located descriptor.now «data».now path.now).start }
    ensures length { length.new ≡ (located descriptor.now «data».now path.now).length }
{
    kerbcanopy::lent::kc_view_into(descriptor, data, path, answer, start, length)
}

#[unsafe(no_mangle)]
pub extern "C" fn kc_read_value_into(
    descriptor: &[u8],
    data: &[u8],
    path: &[u32],
    answer: &mut [u32; 3],
    kind: &mut u32,
    bits: &mut u64,
)
    ensures answer { answer.new ≡ answer_numbers (read_value descriptor.now «data».now path.now).answer }
    ensures kind { kind.new ≡ value_kind (read_value descriptor.now «data».now path.now).value }
    ensures bits { bits.new ≡ value_bits (read_value descriptor.now «data».now path.now).value }
{
    kerbcanopy::lent::kc_read_value_into(descriptor, data, path, answer, kind, bits)
}

#[unsafe(no_mangle)]
pub extern "C" fn kc_to_little_endian_into(
    descriptor: &[u8],
    data: &[u8],
    out: &mut [u8],
    answer: &mut [u32; 3],
)
    ensures answer { answer.new ≡ answer_numbers (to_little_endian descriptor.now «data».now out.old).answer }
    ensures wrote { out.new ≡ (to_little_endian descriptor.now «data».now out.old).out }
{
    kerbcanopy::lent::kc_to_little_endian_into(descriptor, data, out, answer)
}

#[unsafe(no_mangle)]
pub extern "C" fn kc_from_little_endian_into(
    descriptor: &[u8],
    data: &[u8],
    out: &mut [u8],
    answer: &mut [u32; 3],
)
    ensures answer { answer.new ≡ answer_numbers (from_little_endian descriptor.now «data».now out.old).answer }
    ensures wrote { out.new ≡ (from_little_endian descriptor.now «data».now out.old).out }
{
    kerbcanopy::lent::kc_from_little_endian_into(descriptor, data, out, answer)
}

#[unsafe(no_mangle)]
pub extern "C" fn kc_read_record_into(
    writer: &[u8],
    reader: &[u8],
    data: &[u8],
    out: &mut [u8],
    answer: &mut [u32; 3],
)
    ensures answer { answer.new ≡ answer_numbers (resolved writer.now reader.now «data».now out.old).answer }
    ensures wrote { out.new ≡ (resolved writer.now reader.now «data».now out.old).out }
{
    kerbcanopy::lent::kc_read_record_into(writer, reader, data, out, answer)
}

#[unsafe(no_mangle)]
pub extern "C" fn kc_stamp_difference_into(
    first_seconds_high: i32,
    first_seconds_low: i32,
    first_fraction_high: u32,
    first_fraction_low: u32,
    second_seconds_high: i32,
    second_seconds_low: i32,
    second_fraction_high: u32,
    second_fraction_low: u32,
    answer: &mut [u32; 3],
    seconds: &mut i64,
    fraction: &mut u64,
)
    ensures answer { answer.new ≡ answer_numbers (difference first_seconds_high first_seconds_low first_fraction_high first_fraction_low second_seconds_high second_seconds_low second_fraction_high second_fraction_low).answer }
    ensures seconds { seconds.new ≡ (difference first_seconds_high first_seconds_low first_fraction_high first_fraction_low second_seconds_high second_seconds_low second_fraction_high second_fraction_low).seconds }
    ensures fraction { fraction.new ≡ (difference first_seconds_high first_seconds_low first_fraction_high first_fraction_low second_seconds_high second_seconds_low second_fraction_high second_fraction_low).fraction }
{
    kerbcanopy::lent::kc_stamp_difference_into(
        first_seconds_high,
        first_seconds_low,
        first_fraction_high,
        first_fraction_low,
        second_seconds_high,
        second_seconds_low,
        second_fraction_high,
        second_fraction_low,
        answer,
        seconds,
        fraction,
    )
}

#[unsafe(no_mangle)]
pub extern "C" fn kc_store_check_into(store: &[u8], answer: &mut [u32; 3])
    ensures { answer.new ≡ answer_numbers (book_check store.now) }
{
    kerbcanopy::lent::kc_store_check_into(store, answer)
}

#[unsafe(no_mangle)]
pub extern "C" fn kc_store_add_into(
    store: &mut [u8],
    descriptor: &[u8],
    data: &[u8],
    answer: &mut [u32; 3],
)
    ensures answer { answer.new ≡ answer_numbers (added store.old descriptor.now «data».now).answer }
    ensures wrote { store.new ≡ (added store.old descriptor.now «data».now).out }
{
    kerbcanopy::lent::kc_store_add_into(store, descriptor, data, answer)
}

#[unsafe(no_mangle)]
pub extern "C" fn kc_store_find_into(
    store: &[u8],
    identifier: u32,
    answer: &mut [u32; 3],
    start: &mut u64,
    length: &mut u64,
)
    ensures answer { answer.new ≡ answer_numbers (found store.now identifier).answer }
    ensures start { start.new ≡ (found store.now identifier).start }
    ensures length { length.new ≡ (found store.now identifier).length }
{
    kerbcanopy::lent::kc_store_find_into(store, identifier, answer, start, length)
}

#[unsafe(no_mangle)]
pub extern "C" fn kc_store_list_into(store: &[u8], identifiers: &mut [u32], answer: &mut [u32; 3])
    ensures answer { answer.new ≡ answer_numbers (listed store.now identifiers.old).answer }
    ensures wrote { identifiers.new ≡ (listed store.now identifiers.old).out }
{
    kerbcanopy::lent::kc_store_list_into(store, identifiers, answer)
}
