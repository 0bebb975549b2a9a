//! Command lines.
use command_words::{Job, Options, read_words};
use std::alloc::Global;
use std::fmt::Debug;
use std::process::Abort;

/// The value of an answer. A test that finds no memory stops at once.
fn had<T, E: Debug + Drop>(rt: &impl Abort, answer: Result<T, E>) -> T {
    match answer {
        Ok(value) => value,
        Err(fault) => panic!(rt; "{fault:?}"),
    }
}

/// What the program's name and the words between the spaces of a line say.
fn answer(rt: &impl Abort, alloc: Global, line: &str) -> String {
    let mut words: Vec<String> = Vec::new(alloc);
    push_word(rt, alloc, &mut words, "sincronia");
    for word in line.split(' ') {
        push_word(rt, alloc, &mut words, word);
    }
    said(rt, alloc, &words)
}

/// Appends a word.
fn push_word(rt: &impl Abort, alloc: Global, words: &mut Vec<String>, word: &str) {
    let word = had(rt, String::from_str(alloc, word));
    let Ok(()) = words.push(word) else {
        panic!(rt; "no memory");
    };
}

/// What words say: the job, and the options behind it; or their fault.
fn said(rt: &impl Abort, alloc: Global, words: &[String]) -> String {
    match read_words(alloc, words) {
        Ok(said) => {
            let mut text = String::new(alloc);
            tell_job(rt, &mut text, said.job);
            tell_options(rt, &mut text, said.options);
            text
        }
        Err(fault) => had(rt, format!(in alloc; "{fault}")),
    }
}

/// Adds a job: its command, with the names or the number behind it, `-` where there is no second one, each before a
/// space.
fn tell_job(rt: &impl Abort, text: &mut String, job: Job<'_>) {
    match job {
        Job::Plan { trace } => tell_names(rt, text, "Plan", trace, "-"),
        Job::Check { trace, report } => tell_names(rt, text, "Check", trace, report),
        Job::Make { seed } => had(rt, write!(text, "Make {seed} - ")),
        Job::Compare { trace } => tell_names(rt, text, "Compare", trace, "-"),
        Job::Classes { trace } => tell_names(rt, text, "Classes", trace, "-"),
        Job::Audit { trace, journal } => tell_names(rt, text, "Audit", trace, journal),
        Job::Online { trace } => tell_names(rt, text, "Online", trace, "-"),
        Job::Live { trace, script } => tell_names(rt, text, "Live", trace, script),
        Job::Serve { trace, order } => tell_names(rt, text, "Serve", trace, order),
        Job::Replay { trace } => tell_names(rt, text, "Replay", trace, "-"),
        Job::Record { trace, policy } => tell_names(rt, text, "Record", trace, policy),
    }
}

/// Adds a command and the names behind it, each before a space.
fn tell_names(rt: &impl Abort, text: &mut String, command: &str, first: &str, second: &str) {
    tell_name(rt, text, command);
    tell_name(rt, text, first);
    tell_name(rt, text, second);
}

/// Adds a name before a space.
fn tell_name(rt: &impl Abort, text: &mut String, name: &str) {
    had(rt, text.push_str(name));
    had(rt, text.push_str(" "));
}

/// Adds the weights, `-` where there are none, and the values of `--unit`, `--agents`, `--epoch`, `--run`, `--slot-ms`,
/// `--classes` and `--fold`.
fn tell_options(rt: &impl Abort, text: &mut String, options: Options<'_>) {
    had(rt, text.push_str(options.weights.unwrap_or("-")));
    tell_value(rt, text, options.unit.megabytes);
    tell_value(rt, text, options.agents);
    tell_value(rt, text, options.epoch);
    tell_value(rt, text, options.run);
    tell_value(rt, text, options.slot_ms);
    tell_value(rt, text, options.classes);
    had(rt, write!(text, " {:?}", options.fold));
}

/// Adds a value behind a space.
fn tell_value(rt: &impl Abort, text: &mut String, value: u64) {
    had(rt, write!(text, " {value}"));
}

/// Stops where a line says something else.
fn try_line(rt: &impl Abort, alloc: Global, line: &str, want: &str) {
    let have = answer(rt, alloc, line);
    if have.as_str() != want {
        panic!(rt; "{line} says {have}");
    }
}

/// Lines and what they say.
const READ: &str = "plan t => Plan t - - 1 4 1024 1 8 8 Count
--weights w plan t => Plan t - w 1 4 1024 1 8 8 Count
plan --weights w t => Plan t - w 1 4 1024 1 8 8 Count
plan t --weights w => Plan t - w 1 4 1024 1 8 8 Count
plan t --weights=w => Plan t - w 1 4 1024 1 8 8 Count
plan t --weights=-x => Plan t - -x 1 4 1024 1 8 8 Count
plan t --weights=-- => Plan t - -- 1 4 1024 1 8 8 Count
plan t --weights=a=b => Plan t - a=b 1 4 1024 1 8 8 Count
plan t --weights a=b => Plan t - a=b 1 4 1024 1 8 8 Count
plan t --weights =b => Plan t - =b 1 4 1024 1 8 8 Count
plan t --weights==b => Plan t - =b 1 4 1024 1 8 8 Count
plan t --unit 01 => Plan t - - 1 4 1024 1 8 8 Count
plan t --unit 1048576 => Plan t - - 1048576 4 1024 1 8 8 Count
plan t --agents=1 => Plan t - - 1 1 1024 1 8 8 Count
plan t --agents 64 => Plan t - - 1 64 1024 1 8 8 Count
plan t --epoch 1099511627776 => Plan t - - 1 4 1099511627776 1 8 8 Count
plan t --run 1099511627776 => Plan t - - 1 4 1024 1099511627776 8 8 Count
plan t --slot-ms 1048576 => Plan t - - 1 4 1024 1 1048576 8 Count
--slot-ms 6 plan --run 5 --epoch=4 t --agents 3 --weights=w --unit 2 => Plan t - w 2 3 4 5 6 8 Count
check t r => Check t r - 1 4 1024 1 8 8 Count
check --unit=1 t --run 1 r -- => Check t r - 1 4 1024 1 8 8 Count
check -- -t -- => Check -t -- - 1 4 1024 1 8 8 Count
check t -- --unit => Check t --unit - 1 4 1024 1 8 8 Count
make 007 => Make 7 - - 1 4 1024 1 8 8 Count
make 18446744073709551615 => Make 18446744073709551615 - - 1 4 1024 1 8 8 Count
make 0 --epoch 5 => Make 0 - - 1 4 5 1 8 8 Count
plan help => Plan help - - 1 4 1024 1 8 8 Count
plan plan => Plan plan - - 1 4 1024 1 8 8 Count
plan -- -x => Plan -x - - 1 4 1024 1 8 8 Count
plan -- -- => Plan -- - - 1 4 1024 1 8 8 Count
-- plan t => Plan t - - 1 4 1024 1 8 8 Count
plan -- t => Plan t - - 1 4 1024 1 8 8 Count
plan t -- => Plan t - - 1 4 1024 1 8 8 Count
compare t => Compare t - - 1 4 1024 1 8 8 Count
classes t => Classes t - - 1 4 1024 1 8 8 Count
classes t --classes 1 => Classes t - - 1 4 1024 1 8 1 Count
--classes=64 classes t --weights w => Classes t - w 1 4 1024 1 8 64 Count
plan t --classes 02 => Plan t - - 1 4 1024 1 8 2 Count
classes t --fold count => Classes t - - 1 4 1024 1 8 8 Count
classes t --fold load => Classes t - - 1 4 1024 1 8 8 Load
--fold=load classes --classes 3 t => Classes t - - 1 4 1024 1 8 3 Load
plan --fold load t => Plan t - - 1 4 1024 1 8 8 Load
audit t j => Audit t j - 1 4 1024 1 8 8 Count
--unit 2 audit t --weights=w j --agents 3 => Audit t j w 2 3 1024 1 8 8 Count
audit -- -t -j => Audit -t -j - 1 4 1024 1 8 8 Count
online t => Online t - - 1 4 1024 1 8 8 Count
online t --epoch 4 => Online t - - 1 4 4 1 8 8 Count
--slot-ms=20 online --epoch 1099511627776 t --weights w --unit 3 --agents 64 => Online t - w 3 64 1099511627776 1 20 8 Count
live t s => Live t s - 1 4 1024 1 8 8 Count
live t s --run 4 => Live t s - 1 4 1024 4 8 8 Count
--run=1099511627776 live --weights w t --agents 64 s --unit 2 => Live t s w 2 64 1024 1099511627776 8 8 Count
live -- -t -s => Live -t -s - 1 4 1024 1 8 8 Count
live t s --epoch 5 --slot-ms 6 --classes 7 => Live t s - 1 4 5 1 6 7 Count
serve a b => Serve a b - 1 4 1024 1 8 8 Count
--unit 2 serve a --weights=w b => Serve a b w 2 4 1024 1 8 8 Count
serve -- -a -b => Serve -a -b - 1 4 1024 1 8 8 Count
replay t => Replay t - - 1 4 1024 1 8 8 Count
replay t --epoch 4 --slot-ms 20 => Replay t - - 1 4 4 1 20 8 Count
--slot-ms=1048576 replay --epoch 1 --weights w t --unit=3 => Replay t - w 3 4 1 1 1048576 8 Count
replay -- -t => Replay -t - - 1 4 1024 1 8 8 Count
replay replay => Replay replay - - 1 4 1024 1 8 8 Count
replay t --policy fifo => Record t fifo - 1 4 1024 1 8 8 Count
--policy=abcdefghijklmnop replay --epoch 4 t => Record t abcdefghijklmnop - 1 4 4 1 8 8 Count
plan t --policy fifo => Plan t - - 1 4 1024 1 8 8 Count
check t r --policy=z => Check t r - 1 4 1024 1 8 8 Count";

#[test]
fn lines_that_are_read(rt: HostRuntime) {
    for row in READ.split('\n') {
        let Some((line, want)) = row.split_once(" => ") else {
            panic!(&rt; "a row without an arrow");
        };
        try_line(&rt, rt.alloc(), line, want);
    }
}

/// Lines that are refused, one behind another. The first four have a word that is empty.
const REFUSED: &str = "
\x20
plan t --\x20
plan t --weights\x20
plan
check t
make
make x
make -1
make -- -1
make +1
make 18446744073709551616
paln t
help plan
help
PLAN t
plan  x
plan t r
plan t r x
make 1 r
check t r x
plan -
plan -- -
plan -x
plan -5
plan ---
plan -=
plan t -w x
check t -
check - r
-- plan -- t
plan -- t --unit 1
--help
plan t --help
plan t -h
--version
plan t --version
plan t -V
plan t --unit=1 --unit 1
--unit 1 plan --unit 2 t
plan t --weights w --weights=w2
plan t --weights -x
plan t --weights -
plan t --weights=-
plan t --weights=
plan t --weights --
plan t --weights --unit 1
plan t --weights
plan t --unit
plan t --unitt 1
plan t --uni 1
plan t --=1
plan t --unit=
plan t --unit +5
plan t --unit -1
plan t --unit=-1
plan t --unit 0
plan t --unit 1048577
plan t --unit 1x
plan t --agents 0
plan t --agents 65
plan t --epoch 0
plan t --epoch 1099511627777
plan t --epoch 99999999999999999999
plan t --run 0
plan t --run 1099511627777
plan t --slot-ms 0
plan t --slot-ms 1048577
plan t --slot_ms 8
plan t ---unit 1
make 1 --epoch 0
make 1 --weights=
compare
compare t r
compare -
classes
classes t r
classes t --classes
classes t --classes 0
classes t --classes 65
classes t --classes 1 --classes 1
plan t --classes 65
classes t --fold
classes t --fold=
classes t --fold x
classes t --fold Load
classes t --fold loads
classes t --fold count,load
classes t --fold load count
classes t --fold load --fold load
--fold=count classes t --fold load
classes t --folds load
plan t --fold x
audit
audit t
audit t j x
audit t -
audit - j
audit t j --unit 0
online
online t r
online -
online t --epoch 0
online t --epoch 1099511627777
online t --epoch 4 --epoch=4
online t --slot-ms 1048577
live
live t
live t s x
live t -
live - s
live t s --run 0
live t s --run 1099511627777
live t s --run 1 --run 1
live t s --agents 65
live t s --epoch 0
lives t s
serve
serve a
serve a b c
serve a -
serve - b
serve a b --unit 0
server a b
replay
replay t r
replay -
replay t --epoch 0
replay t --epoch 1099511627777
replay t --slot-ms 0
replay t --epoch 4 --epoch=4
replay t --policy
replay t --policy=
replay t --policy Fifo
replay t --policy a1
replay t --policy abcdefghijklmnopq
replay t --policy fifo --policy=fifo
plan t --policy 1
replays t";

#[test]
fn lines_that_are_refused(rt: HostRuntime) {
    let want = "the words are no command line";
    for line in REFUSED.split('\n') {
        try_line(&rt, rt.alloc(), line, want);
    }
    // no words at all
    let have = said(&rt, rt.alloc(), &[]);
    assert!(rt; have.as_str() == want);
}
