// A burst of searches, in three passes over the answers: all hashes, all choices, then the buckets, so that the reads of one key do not wait for another's.
ghost use Rattle.std.specs.Prelude.{◌≡◌, true, ◌*◌, ◌<◌, length, get_or};
ghost use Rattle.theory.specs.Lists.{has};
ghost use Rattle.theory.specs.Settings.{allowed, clipped_length};
ghost use Rattle.memory.specs.Refusals.{answer_of};
ghost use Rattle.hash.specs.Table.{table_lengths, H_by};
ghost use Rattle.settings.specs.Checked.{paper, given_of, card};
ghost use Rattle.lookup.specs.Choosing.{key_counters_at};
ghost use Rattle.lookup.specs.Answers.{at_entry};
ghost use Rattle.lookup.specs.Bursts.{burst_key, per_key, CountersFit, packed_of, unpacked_of, number_by, ByPacked, Burst, burst_of};

use crate::counters::{KeyCounters, key_counters};
use crate::judging::judge_burst;
use crate::numbers::chosen_number;
use hash::h_with_table;
use memory::records::key_at;
use memory::refusals::Refusal;
use settings::areas::LookupAreas;
use settings::counts::ClippedCount;
use settings::{Given, Settings};

// What the counters say, as one number, which stands in the lent answers until the third pass; and back. No From: one of the two requires a range.
fn packed(choice: Option<KeyCounters>) -> u64
    requires { CountersFit choice }
    ensures { result ≡ packed_of choice }
{
    match choice {
        None => 4294967296,
        Some(counters) => counters.least.rank(counters.bucket as u64),
    }
}

fn unpacked(x: u64) -> Option<KeyCounters>
    ensures { result ≡ unpacked_of x }
{
    if 4294967295 < x {
        return None;
    }
    Some(KeyCounters {
        least: ClippedCount::of_rank(x % 4294967296),
        bucket: (x % 65536) as usize,
    })
}

// The first pass: what the table gives for each key. By enumerate, here and below: after a zip with iter_mut nothing is known of what was written.
fn hash_all(s: Settings, table: &[u64], keys: &[u8], answers: &mut [u64])
    requires { (has (length table.now) (table_lengths (card s).width) ≡ true)
        × (length keys.now ≡ length answers.old * (card s).width) }
    ensures { answers.new
        ≡ per_key (λ j. H_by table.now (burst_key (card s).width keys.now j)) (length answers.old) }
{
    let width = s.width();
    for (i, h) in answers.iter_mut().enumerate() {
        let one = key_at(keys, i, width, width);
        *h = h_with_table(table, one);
    }
}

// The second pass: what the counters say of each key, by its H.
fn read_all_counters(s: Settings, clipped: &[u8], answers: &mut [u64])
    requires { (allowed (paper s) ≡ true) × (length clipped.now ≡ clipped_length (card s)) }
    ensures { answers.new
        ≡ per_key (λ j. packed_of (key_counters_at (paper s) clipped.now (get_or answers.old j 0))) (length answers.old) }
{
    for i in 0..answers.len() {
        answers[i] = packed(key_counters(s, answers[i], clipped));
    }
}

// The third pass: the driver's number of each key.
fn answer_all(s: Settings, areas: LookupAreas<'_>, keys: &[u8], answers: &mut [u64])
    requires { ByPacked (paper s) areas.buckets.now areas.side.now keys.now answers.old }
    ensures { answers.new ≡ per_key (λ j. number_by (paper s) areas.entry.buckets.now areas.entry.side.now
        (burst_key (card s).width keys.now j) (get_or answers.old j 0)) (length answers.old) }
{
    let width = s.width();
    for (i, answer) in answers.iter_mut().enumerate() {
        let choice = unpacked(*answer);
        let key = key_at(keys, i, width, width);
        *answer = chosen_number(s, choice, areas, key);
    }
}

// Search for many keys with a lent table of the hash: 1; 2; 3; else the driver's number of each key.
pub fn search_burst(
    table: &[u64],
    given: Given,
    areas: LookupAreas<'_>,
    keys: &[u8],
    answers: &mut [u64],
) -> Result<(), Refusal>
    ensures { ◌≡◌ {A = Burst} (record { number = answer_of result; answers = answers.new })
        (at_entry (burst_of table.now (given_of given)) areas keys answers.old) }
{
    let s = judge_burst(table, given, areas, keys, answers.len())?;
    hash_all(s, table, keys, answers);
    read_all_counters(s, areas.clipped, answers);
    answer_all(s, areas, keys, answers);
    Ok(())
}
