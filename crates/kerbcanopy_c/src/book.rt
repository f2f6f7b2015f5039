// The entries of the blank book.
ghost use Rattle.std.specs.Prelude.{◌≡◌};
ghost use Rattle.store.specs.Check.{book_check};
ghost use Rattle.store.specs.Questions.{found, listed, added};

use access::part::Part;
use descriptor::answer::Answer;

#[unsafe(no_mangle)]
pub extern "C" fn kc_store_check(store: &[u8]) -> Answer
    ensures { result ≡ book_check store.now }
{
    kerbcanopy::book::kc_store_check(store)
}

#[unsafe(no_mangle)]
pub extern "C" fn kc_store_add(store: &mut [u8], descriptor: &[u8], data: &[u8]) -> Answer
    ensures answer { result ≡ (added store.old descriptor.now «data».now).answer }
    ensures wrote { store.new ≡ (added store.old descriptor.now «data».now).out }
{
    kerbcanopy::book::kc_store_add(store, descriptor, data)
}

#[unsafe(no_mangle)]
pub extern "C" fn kc_store_find(store: &[u8], identifier: u32) -> Part
    ensures { result ≡ found store.now identifier }
{
    kerbcanopy::book::kc_store_find(store, identifier)
}

#[unsafe(no_mangle)]
pub extern "C" fn kc_store_list(store: &[u8], identifiers: &mut [u32]) -> Answer
    ensures answer { result ≡ (listed store.now identifiers.old).answer }
    ensures wrote { identifiers.new ≡ (listed store.now identifiers.old).out }
{
    kerbcanopy::book::kc_store_list(store, identifiers)
}
