//! What the program does for the words `readdev ADDRESS DEVICE SAMPLES MASK SCANS`.

ghost use Rattle.std.specs.Prelude.{◌≡◌, ℕ, ◌≤◌, [], List, IfSome};
ghost use Rattle.iio_script.specs.LineReader.{TakesBlocks};
ghost use Rattle.iiod_client.specs.Point.{point};
ghost use Rattle.iiod_readdev.specs.Counts.{ShowsCounts};
ghost use Rattle.iiod_readdev.specs.Reading.{EndsBy, IsDescribed, IsDueOr, NamesCommands, ReadsFrom, ReadsInput, TakesForLine, WantedComesTo};
ghost use Rattle.iiod_readdev.specs.declared.read_status.ReadStatus.{ReadStatus as Status};
ghost use Rattle.iiod_readdev.specs.Wanted.{wanted_of};
ghost use Rattle.iiod_readdev.specs.Words.{IsNoReaddev, IsReaddev, ReaddevWords, words_of};

use crate::dialled::dial_and_read;
use crate::read_status::ReadStatus;
use crate::wanted::ask_of;
use crate::words::{Words, read_words};
use iio_desc::Desc;
use iio_io::{Dial, Sink, Source};
use iio_script::end_refused;
use iiod_serve::{print_usage, read_description};
use std::alloc::Global;

// Reads over a link what the words want of a description, or prints why they are refused.
fn read_described<K: Sink, L: Dial>(
    alloc: Global,
    desc: &Desc,
    words: &Words<'_>,
    output: &mut K,
    link: &mut L,
) -> ReadStatus
    requires samples { 1 ≤ words.now.samples }
    requires scans { 1 ≤ words.now.scans }
    ensures reads { (pending : List ℕ) × ReadsFrom (wanted_of desc.now (words_of words.now)) result
        (point (L.left link.old) [] (L.written link.old) (K.written output.old)) (point (L.left link.new) pending (L.written link.new) (K.written output.new)) }
    ensures counts { (input : ℕ) → ShowsCounts result input input (L.faults link.old) (L.faults link.new) (K.faults output.old) (K.faults output.new) }
    ensures described { IsDescribed result }
    ensures exact { (due : Status) → WantedComesTo (wanted_of desc.now (words_of words.now)) (L.left link.old) due → IsDueOr due result }
{
    match ask_of(desc, words) {
        Ok(ask) => dial_and_read(alloc, &ask, words.address, output, link),
        Err(why) => ReadStatus::of_run(end_refused(alloc, output, 0, why)),
    }
}

/// Does what the words `readdev ADDRESS DEVICE SAMPLES MASK SCANS` say: reads the description at the head of the input, which
/// may use `drivers` drivers, begins the connection at the address, and reads SCANS scans of the device under the mask over
/// it, as `read_device` does; the server is to keep SAMPLES samples. Both numbers are decimal and at least 1.
///
/// A description that is refused, or that is longer than is looked at, is reported as by `layout`. After that the device and
/// then the mask may be refused, at line 0: `Device` if the description has no device of that name, `Mask` if the text is no
/// mask of the device, or has no data channel. In all these cases the link isn't touched. If the connection can't be begun,
/// `no address` is printed. Other words print the line that names the commands, and leave the input and the link alone.
pub fn readdev<S: Source, K: Sink, L: Dial>(
    alloc: Global,
    words: &[String],
    drivers: u32,
    input: &mut S,
    output: &mut K,
    link: &mut L,
) -> ReadStatus
    // What was sent and printed, and why; `pending` was received, and comes after what was heard.
    ensures reads { (said : ReaddevWords) → IsReaddev words.now said
        → IfSome (S.left input.old) (λ left. (pending : List ℕ) × ReadsInput drivers said left result
        (point (L.left link.old) [] (L.written link.old) (K.written output.old))
        (point (L.left link.new) pending (L.written link.new) (K.written output.new))) }
    ensures taken { (said : ReaddevWords) → IsReaddev words.now said → IfSome (S.left input.old) (λ left. TakesBlocks left (S.left input.new)) }
    // If a line of the description is refused, at most 65,536 bytes were taken after the byte at which it failed.
    ensures near { (said : ReaddevWords) → IsReaddev words.now said → IfSome (S.left input.old) (λ left. TakesForLine result left (S.left input.new)) }
    ensures nothing { (said : ReaddevWords) → IsReaddev words.now said → result ≡ ReadStatus.ReadFault → output.new ≡ output.old }
    ensures words { (said : ReaddevWords) → IsReaddev words.now said → result ≡ ReadStatus.Usage → ⊥ }
    ensures usage { IsNoReaddev words.now → NamesCommands result (K.written output.old) (K.written output.new) }
    ensures unread { IsNoReaddev words.now → input.new ≡ input.old }
    ensures undialled { IsNoReaddev words.now → link.new ≡ link.old }
    ensures counts { ShowsCounts result (S.faults input.old) (S.faults input.new) (L.faults link.old) (L.faults link.new) (K.faults output.old)
        (K.faults output.new) }
    // The status is the one to which the input and, over a visible
    // link, its bytes come, unless a call failed or memory ran out.
    ensures exact { (said : ReaddevWords) → IsReaddev words.now said → IfSome (S.left input.old) (λ left. EndsBy drivers said left (L.left link.old) result) }
{
    let Some(words) = read_words(words) else {
        return ReadStatus::of_run(print_usage(output));
    };
    match read_description(alloc, drivers, input, output) {
        Ok(desc) => read_described(alloc, &desc, &words, output, link),
        Err(status) => ReadStatus::of_run(status),
    }
}
