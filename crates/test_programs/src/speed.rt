//! Random numbers, and rounds and sessions over a clock of their own.

use crate::devices::TAKEN;
use speed_core::{Bench, Failure, Timer, Work, random, session, time_bimaps, time_size};
use std::alloc::{AllocError, Global};
use std::cell::Cell;
use std::io;
use std::io::Write;
use std::time::{Clock, Duration};

/// A clock that goes on by a millisecond whenever it is read.
#[derive(Drop)]
struct Ticks(Cell<u64>);

impl Clock for Ticks {
    fn monotonic(&self) -> io::Result<Duration> {
        let ticks = self.0.get().wrapping_add(1) % 1_000_000;
        self.0.set(ticks);
        Ok(Duration::from_millis(ticks))
    }

    fn since_1970(&self) -> io::Result<Duration> {
        self.monotonic()
    }
}

/// A clock that has been read no time.
fn new_clock() -> Ticks {
    Ticks(Cell::new(0))
}

#[test]
fn random_numbers_have_their_sum(rt: HostRuntime) {
    for (count, sum) in [
        (0, 0),
        (1, 4225635760),
        (10, 19303721494),
        (1000, 2125908229921),
    ] {
        let numbers = random(rt.alloc(), count).expect(&rt, "memory");
        let found = numbers
            .iter()
            .fold(0u64, |sum, number| sum.wrapping_add(u64::from(*number)));
        assert!(rt; found == sum, "{count}");
    }
}

/// The lines of two rounds of ten entries, each of which takes a millisecond.
const LINES: &str = "\
set_dedup_random 10 20 5000000
set_dedup_rising 10 20 5000000
set_dedup_same 10 2 5000000
set_try_vec_rising 10 20 5000000
set_try_vec_random 10 20 5000000
set_position 10 90 5000000
set_write 10 82 5000000
set_read 10 20 5000000
set_clone 10 20 5000000
set_equal 10 2 5000000
set_hash 10 10018817724098732534 5000000
bytes_write 10 22 5000000
bytes_read 10 42 5000000
map_dedup 10 20 5000000
map_get_value 10 38607443008 5000000
map_read 10 38607443028 5000000
value_map 10 20 5000000
map_into_iter 10 77214885976 5000000
non_empty_read 10 20 5000000
non_empty_map 10 20 5000000
committee_key 10 38607442988 5000000
committee_index 10 90 5000000
conflict 10 20 5000000
wide_dedup 10 20 5000000
wide_write 10 642 5000000
wide_read 10 20 5000000
wide_position 10 90 5000000
wide48_dedup 10 20 5000000
wide48_write 10 962 5000000
wide48_read 10 20 5000000
wide48_position 10 90 5000000
bimap_try_iter 10 20 5000000
bimap_get_key 10 38607442988 5000000
";

#[test]
fn two_rounds_have_their_check_sums(rt: HostRuntime) {
    let mut text: Vec<u8> = Vec::new(rt.alloc());
    let mut bench = Bench::new(rt.alloc(), new_clock(), &mut text);
    let timed = time_size(&mut bench, 10, 2).is_ok() && time_bimaps(&mut bench, 10, 2).is_ok();
    drop(bench);
    assert!(rt; timed && text.as_slice() == LINES.as_bytes());
}

/// Times one call, which says the greatest size.
struct Greatest;

impl Timer for Greatest {
    fn time_sizes<C: Clock, W: Write>(
        bench: &mut Bench<C, W>,
        greatest: u32,
    ) -> Result<(), Failure> {
        let work = Work::new("greatest", greatest as usize, 1);
        bench.line(work, 0, || Ok(u64::from(greatest)))?;
        Ok(())
    }
}

/// The session of a word: its status, and what it writes.
fn session_of(alloc: Global, word: &str) -> Result<(u8, Vec<u8>), AllocError> {
    let mut words = Vec::new(alloc);
    words.push(String::from_str(alloc, word)?)?;
    let mut text = Vec::new(alloc);
    let mut errors = TAKEN.writer(alloc);
    let status = session::<Greatest, _, _, _>(alloc, &words, new_clock(), &mut text, &mut errors);
    Ok((status, text))
}

#[test]
fn a_word_is_a_size_or_no_command(rt: HostRuntime) {
    for (word, status, text) in [("10", 0, "greatest 10 10 10000000\n"), ("9", 2, "")] {
        let (ended, written) = session_of(rt.alloc(), word).expect(&rt, "memory");
        assert!(rt;
            ended == status && written.as_slice() == text.as_bytes(),
            "{word}"
        );
    }
}
