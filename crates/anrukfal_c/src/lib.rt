// The calls of `anrukfal` under their C names. include/anrukfal.h declares them.
#![tactic(auto)]

ghost use Rattle.std.specs.Prelude.{◌≡◌, ◌↔◌};
ghost use Rattle.section.specs.Answer.{Told};
ghost use Rattle.section.specs.Place.{addr, off};
ghost use Rattle.section.specs.Prel31.{prel31_of};
ghost use Rattle.pointer.specs.Answers.{read_answer};
ghost use Rattle.pointer.specs.Pointer.{pointer_of};
ghost use Rattle.instruction.specs.Answers.{decoded_answer};
ghost use Rattle.instruction.specs.Decode.{decode_of};
ghost use Rattle.entry.specs.Answers.{index_answer, table_answer};
ghost use Rattle.entry.specs.Index.{index_entry_of};
ghost use Rattle.entry.specs.Table.{table_entry_of};
ghost use Rattle.lsda.specs.Answers.{site_answer};
ghost use Rattle.lsda.specs.Sites.{call_site_of};
ghost use Rattle.image.specs.Image.{image};
ghost use Rattle.search.specs.Answers.{search_answer};
ghost use Rattle.search.specs.Search.{search_of};
ghost use Rattle.lookup.specs.Answers.{looked_answer};
ghost use Rattle.lookup.specs.Lookup.{lookup_of};
ghost use Rattle.step.specs.Execute.{registers};
ghost use Rattle.step.specs.Step.{step_of};
ghost use Rattle.audit.specs.Answers.{verdict_answer};
ghost use Rattle.audit.specs.Audit.{audit_of};
ghost use Rattle.audit.specs.Promise.{Promise};
ghost use Rattle.audit.specs.Sound.{Sound};
ghost use Rattle.anrukfal.specs.Step.{StepTold};
ghost use Rattle.bundle.specs.Answers.{bundle_answer};
ghost use Rattle.bundle.specs.Bundle.{bundle_of};

// The target of a word that stands at `place`.
#[unsafe(no_mangle)]
pub extern "C" fn anrukfal_prel31(word: u32, place: u32) -> u32
    ensures { result ≡ (prel31_of word (addr place)).0 }
{
    anrukfal::anrukfal_prel31(word, place)
}

// Value, next position.
#[unsafe(no_mangle)]
pub extern "C" fn anrukfal_pointer(data: &[u8], at: u32, encoding: u8, row: &mut [u32; 2]) -> u32
    ensures { Told (read_answer (pointer_of «data».now at encoding)) result row.new }
{
    anrukfal::anrukfal_pointer(data, at, encoding, row)
}

// Kind, a, b, next position.
#[unsafe(no_mangle)]
pub extern "C" fn anrukfal_instruction(words: &[u8], at: u32, row: &mut [u32; 4]) -> u32
    ensures { Told (decoded_answer at (decode_of words.now at)) result row.new }
{
    anrukfal::anrukfal_instruction(words, at, row)
}

// Function, kind, selector or table address, offset of the words, words, skip.
#[unsafe(no_mangle)]
pub extern "C" fn anrukfal_index_entry(
    index: &[u8],
    index_address: u32,
    number: u32,
    row: &mut [u32; 6],
) -> u32
    ensures { Told (index_answer (index_entry_of index.now (addr index_address) number)) result row.new }
{
    anrukfal::anrukfal_index_entry(index, index_address, number, row)
}

// Kind, selector or personality address, offset of the words, words, skip, offset of the language data.
#[unsafe(no_mangle)]
pub extern "C" fn anrukfal_table_entry(
    table: &[u8],
    table_address: u32,
    offset: u32,
    row: &mut [u32; 6],
) -> u32
    ensures { Told (table_answer (table_entry_of table.now (addr table_address) (off offset))) result row.new }
{
    anrukfal::anrukfal_table_entry(table, table_address, offset, row)
}

// Start, end, pad, has action, action.
#[unsafe(no_mangle)]
pub extern "C" fn anrukfal_call_site(
    data: &[u8],
    function: u32,
    counter: u32,
    row: &mut [u32; 5],
) -> u32
    ensures { Told (site_answer (call_site_of «data».now (addr function) (addr counter))) result row.new }
{
    anrukfal::anrukfal_call_site(data, function, counter, row)
}

// Entry, function words read.
#[unsafe(no_mangle)]
pub extern "C" fn anrukfal_search(
    index: &[u8],
    index_address: u32,
    counter: u32,
    row: &mut [u32; 2],
) -> u32
    ensures { Told (search_answer (search_of index.now (addr index_address) (addr counter))) result row.new }
{
    anrukfal::anrukfal_search(index, index_address, counter, row)
}

// Entry, function, kind, selector or personality address, start, end, pad, has action, action.
#[unsafe(no_mangle)]
pub extern "C" fn anrukfal_lookup(
    index: &[u8],
    index_address: u32,
    table: &[u8],
    table_address: u32,
    counter: u32,
    row: &mut [u32; 9],
) -> u32
    ensures { Told (looked_answer (lookup_of (image index.now (addr index_address) table.now (addr table_address)) (addr counter))) result row.new }
{
    anrukfal::anrukfal_lookup(index, index_address, table, table_address, counter, row)
}

// Kind, count. The registers go in and come out; a refused step leaves them as they were.
#[unsafe(no_mangle)]
pub extern "C" fn anrukfal_step<'a>(
    index: &'a [u8],
    index_address: u32,
    table: &'a [u8],
    table_address: u32,
    stack: &[u8],
    stack_address: u32,
    core: &mut [u32; 16],
    vfp: &mut [u64; 32],
    row: &mut [u32; 2],
) -> u32
    ensures { StepTold (step_of (image index.now (addr index_address) table.now (addr table_address)) stack.now (addr stack_address) (registers core.old vfp.old)) result core.new vfp.new row.new }
{
    anrukfal::anrukfal_step(
        index,
        index_address,
        table,
        table_address,
        stack,
        stack_address,
        core,
        vfp,
        row,
    )
}

// The entry at fault; 0 for a section fault and for an image that passes. 0 is returned exactly for sound images, and these keep the promise.
#[unsafe(no_mangle)]
pub extern "C" fn anrukfal_audit<'a>(
    index: &'a [u8],
    index_address: u32,
    table: &'a [u8],
    table_address: u32,
    row: &mut [u32; 1],
) -> u32
    ensures demand_three { result ≡ 0 → Promise (image index.now (addr index_address) table.now (addr table_address)) }
    ensures passes_exactly { (result ≡ 0) ↔ Sound (image index.now (addr index_address) table.now (addr table_address)) }
    ensures answer { Told (verdict_answer (audit_of (image index.now (addr index_address) table.now (addr table_address)))) result row.new }
{
    anrukfal::anrukfal_audit(index, index_address, table, table_address, row)
}

// Index address, table address, offset and bytes of the index, offset and bytes of the table.
#[unsafe(no_mangle)]
pub extern "C" fn anrukfal_bundle(bytes: &[u8], row: &mut [u32; 6]) -> u32
    ensures { Told (bundle_answer (bundle_of bytes.now)) result row.new }
{
    anrukfal::anrukfal_bundle(bytes, row)
}
