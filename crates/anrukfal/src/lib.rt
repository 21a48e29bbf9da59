// The calls of the C library, which anrukfal_c exports: each returns the refusal's number, 0 for none, and fills its row, all zero at a refusal.
#![tactic(auto)]

ghost use Rattle.std.specs.Prelude.{◌≡◌, ◌↔◌, [], ◌∷◌};
ghost use Rattle.section.specs.Answer.{Told};
ghost use Rattle.section.specs.Place.{addr, off};
ghost use Rattle.section.specs.Prel31.{prel31_of};
ghost use Rattle.pointer.specs.Answers.{read_answer};
ghost use Rattle.pointer.specs.Pointer.{pointer_of};
ghost use Rattle.instruction.specs.Answers.{decoded_answer};
ghost use Rattle.instruction.specs.Decode.{decode_of};
ghost use Rattle.entry.specs.Answers.{index_answer, table_answer, content_row, table_kind, table_row};
ghost use Rattle.entry.specs.Index.{index_entry_of};
ghost use Rattle.entry.specs.Table.{table_entry_of};
ghost use Rattle.lsda.specs.Answers.{site_answer, site_row};
ghost use Rattle.lsda.specs.Sites.{call_site_of};
ghost use Rattle.image.specs.Image.{image};
ghost use Rattle.search.specs.Answers.{search_answer};
ghost use Rattle.search.specs.Search.{search_of};
ghost use Rattle.lookup.specs.Answers.{looked_answer, looked_row};
ghost use Rattle.lookup.specs.Lookup.{lookup_of};
ghost use Rattle.step.specs.Answers.{arrival_row};
ghost use Rattle.step.specs.Execute.{registers};
ghost use Rattle.step.specs.Step.{step_of};
ghost use Rattle.audit.specs.Answers.{verdict_answer};
ghost use Rattle.audit.specs.Audit.{audit_of};
ghost use Rattle.audit.specs.Promise.{Promise};
ghost use Rattle.audit.specs.Sound.{Sound};
ghost use Rattle.anrukfal.specs.Step.{StepTold};
ghost use Rattle.bundle.specs.Answers.{bundle_answer};
ghost use Rattle.bundle.specs.Bundle.{bundle_of};

use bundle::Bundle;
use entry::{IndexEntry, Personality, TableEntry};
use lookup::Looked;
use lsda::CallSite;
use search::Hit;
use section::{Addr, Off, Refusal};
use step::Arrival;

// The target of a word that stands at `place`.
pub fn anrukfal_prel31(word: u32, place: u32) -> u32
    ensures { result ≡ (prel31_of word (addr place)).0 }
{
    section::prel31(word, Addr(place)).0
}

// Value, next position.
fn read_row(read: (u32, Off)) -> [u32; 2]
    ensures { result ≡ read.0 ∷ read.1.0 ∷ [] }
{
    let (value, next) = read;
    [value, next.0]
}

fn read_told(read: Result<(u32, Off), Refusal>, row: &mut [u32; 2]) -> u32
    ensures { Told (read_answer read) result row.new }
{
    rows::told(read.map(read_row), [0; 2], row)
}

// Value, next position.
#[tactic(auto, using(pointer::proofs::Laws::pointer_sleb))]
pub fn anrukfal_pointer(data: &[u8], at: u32, encoding: u8, row: &mut [u32; 2]) -> u32
    ensures { Told (read_answer (pointer_of «data».now at encoding)) result row.new }
{
    // What compilers write has its own arm: with a constant encoding its reader is inlined here.
    match encoding {
        0x01 => read_told(pointer::pointer(data, Off(at), 0x01), row),
        0x03 => read_told(pointer::pointer(data, Off(at), 0x03), row),
        0x09 => read_told(pointer::sleb(data, Off(at)), row),
        _ => read_told(pointer::pointer(data, Off(at), encoding), row),
    }
}

// Kind, a, b, next position.
pub fn anrukfal_instruction(words: &[u8], at: u32, row: &mut [u32; 4]) -> u32
    ensures { Told (decoded_answer at (decode_of words.now at)) result row.new }
{
    let decoded = instruction::decode(words, at);
    rows::told(rows::decoded_row(decoded, at), [0; 4], row)
}

fn index_row(e: IndexEntry) -> [u32; 6]
    ensures { result ≡ e.function.0 ∷ content_row e.content }
{
    let [kind, value, at, words, skip] = rows::content_row(e.content);
    [e.function.0, kind, value, at, words, skip]
}

// Function, kind, selector or table address, offset of the words, words, skip.
pub fn anrukfal_index_entry(
    index: &[u8],
    index_address: u32,
    number: u32,
    row: &mut [u32; 6],
) -> u32
    ensures { Told (index_answer (index_entry_of index.now (addr index_address) number)) result row.new }
{
    let entry = entry::index_entry(rows::section(index, index_address), number);
    rows::told(entry.map(index_row), [0; 6], row)
}

fn table_kind(p: Personality) -> u32
    ensures { result ≡ table_kind p }
{
    match p {
        Personality::Compact(_) => 2,
        Personality::Generic(_) => 3,
    }
}

fn table_row(e: TableEntry) -> [u32; 6]
    ensures { result ≡ table_row e }
{
    let kind = table_kind(e.personality);
    let value = rows::personality_value(e.personality);
    [
        kind,
        value,
        e.span.at.0,
        e.span.words,
        e.span.skip,
        e.language.0,
    ]
}

// Kind, selector or personality address, offset of the words, words, skip, offset of the language data.
pub fn anrukfal_table_entry(
    table: &[u8],
    table_address: u32,
    offset: u32,
    row: &mut [u32; 6],
) -> u32
    ensures { Told (table_answer (table_entry_of table.now (addr table_address) (off offset))) result row.new }
{
    let entry = entry::table_entry(rows::section(table, table_address), Off(offset));
    rows::told(entry.map(table_row), [0; 6], row)
}

// No pad is 0, and so is no action.
fn site_row(site: CallSite) -> [u32; 5]
    ensures { result ≡ site_row site }
{
    let pad = match site.pad {
        Some(a) => a.0,
        None => 0,
    };
    let (has_action, action) = match site.action {
        Some(n) => (1, n),
        None => (0, 0),
    };
    [site.start.0, site.end.0, pad, has_action, action]
}

// Start, end, pad, has action, action.
pub fn anrukfal_call_site(data: &[u8], function: u32, counter: u32, row: &mut [u32; 5]) -> u32
    ensures { Told (site_answer (call_site_of «data».now (addr function) (addr counter))) result row.new }
{
    let site = lsda::call_site(data, Addr(function), Addr(counter));
    rows::told(site.map(site_row), [0; 5], row)
}

fn hit_row(hit: Hit) -> [u32; 2]
    ensures { result ≡ hit.entry ∷ hit.probes ∷ [] }
{
    [hit.entry, hit.probes]
}

// Entry, function words read.
pub fn anrukfal_search(index: &[u8], index_address: u32, counter: u32, row: &mut [u32; 2]) -> u32
    ensures { Told (search_answer (search_of index.now (addr index_address) (addr counter))) result row.new }
{
    let hit = search::search(rows::section(index, index_address), Addr(counter));
    rows::told(hit.map(hit_row), [0; 2], row)
}

// A compact entry has no site.
fn looked_row(looked: Looked) -> [u32; 9]
    ensures { result ≡ looked_row looked }
{
    match looked {
        Looked::CannotUnwind(k, f) => [k, f.0, 0, 0, 0, 0, 0, 0, 0],
        Looked::Compact(k, f, held, selector) => {
            let kind = rows::compact_kind(held);
            [k, f.0, kind, selector as u32, 0, 0, 0, 0, 0]
        }
        Looked::Generic(k, f, personality, site) => {
            let [start, end, pad, has_action, action] = site_row(site);
            [
                k,
                f.0,
                3,
                personality.0,
                start,
                end,
                pad,
                has_action,
                action,
            ]
        }
    }
}

// Entry, function, kind, selector or personality address, start, end, pad, has action, action.
pub fn anrukfal_lookup(
    index: &[u8],
    index_address: u32,
    table: &[u8],
    table_address: u32,
    counter: u32,
    row: &mut [u32; 9],
) -> u32
    ensures { Told (looked_answer (lookup_of (image index.now (addr index_address) table.now (addr table_address)) (addr counter))) result row.new }
{
    let image = rows::image(index, index_address, table, table_address);
    let looked = lookup::lookup(image, Addr(counter));
    rows::told(looked.map(looked_row), [0; 9], row)
}

fn arrival_row(arrival: Arrival) -> [u32; 2]
    ensures { result ≡ arrival_row arrival }
{
    match arrival {
        Arrival::Frame(count) => [0, count],
        Arrival::CannotUnwind => [1, 0],
    }
}

// Kind, count. The registers go in and come out; a refused step leaves them as they were.
pub fn anrukfal_step<'a>(
    index: &'a [u8],
    index_address: u32,
    table: &'a [u8],
    table_address: u32,
    stack: &[u8],
    stack_address: u32,
    core: &mut [u32; 16],
    vfp: &mut [u64; 32],
    row: &mut [u32; 2],
) -> u32
    ensures { StepTold (step_of (image index.now (addr index_address) table.now (addr table_address)) stack.now (addr stack_address) (registers core.old vfp.old)) result core.new vfp.new row.new }
{
    let image = rows::image(index, index_address, table, table_address);
    let stack = rows::section(stack, stack_address);
    let arrival = step::step_in_place(image, stack, core, vfp);
    rows::told(arrival.map(arrival_row), [0; 2], row)
}

// The entry at fault, so no zeros, and `told` does not serve; 0 for a section fault and for an image that passes. 0 is returned exactly for sound images, and these keep the promise.
pub fn anrukfal_audit<'a>(
    index: &'a [u8],
    index_address: u32,
    table: &'a [u8],
    table_address: u32,
    row: &mut [u32; 1],
) -> u32
    ensures demand_three { result ≡ 0 → Promise (image index.now (addr index_address) table.now (addr table_address)) }
    ensures passes_exactly { (result ≡ 0) ↔ Sound (image index.now (addr index_address) table.now (addr table_address)) }
    ensures answer { Told (verdict_answer (audit_of (image index.now (addr index_address) table.now (addr table_address)))) result row.new }
{
    match audit::audit(rows::image(index, index_address, table, table_address)) {
        Ok(()) => {
            *row = [0];
            0
        }
        Err(fault) => {
            *row = [fault.entry];
            fault.refusal.number()
        }
    }
}

fn bundle_row(b: Bundle) -> [u32; 6]
    ensures { result ≡ b.index_address.0 ∷ b.table_address.0 ∷ b.index.0 ∷ b.index_bytes ∷ b.table.0 ∷ b.table_bytes ∷ [] }
{
    [
        b.index_address.0,
        b.table_address.0,
        b.index.0,
        b.index_bytes,
        b.table.0,
        b.table_bytes,
    ]
}

// Index address, table address, offset and bytes of the index, offset and bytes of the table.
pub fn anrukfal_bundle(bytes: &[u8], row: &mut [u32; 6]) -> u32
    ensures { Told (bundle_answer (bundle_of bytes.now)) result row.new }
{
    rows::told(bundle::read_bundle(bytes).map(bundle_row), [0; 6], row)
}
