//! Command lines. What they ask for was written by hand.
//! What has many parts is let go of by `drop`, which the prover takes as one step.
use cd_base::Limits;
use cd_words::{Ask, AskFault, Command, ask};
use std::alloc::Global;
use std::process::Abort;

/// What a line asks whose words are parted by single spaces.
fn answer(rt: &impl Abort, alloc: Global, line: &str) -> Result<Ask, AskFault> {
    let mut words: Vec<String> = Vec::new(alloc);
    for word in line.split(' ') {
        let text = String::from_str(alloc, word).expect(rt, "memory");
        words.push(text).expect(rt, "memory");
    }
    let found = ask(alloc, words.as_slice());
    drop(words);
    found
}

/// Whether a line asks for this command under limits that have these numbers and the most bytes of input.
fn asks(
    rt: &impl Abort,
    alloc: Global,
    line: &str,
    command: Command,
    (workers, cells, max_contexts, max_facts): (u32, u32, u64, u64),
) -> bool {
    let limits = Limits::with(workers, cells, 268_435_456, max_contexts, max_facts).expect(
        rt,
        "limits in range",
    );
    answer(rt, alloc, line) == Ok(Ask { command, limits })
}

/// Whether a line asks to classify under these limits.
fn classifies(rt: &impl Abort, alloc: Global, line: &str, limits: (u32, u32, u64, u64)) -> bool {
    asks(rt, alloc, line, Command::Classify, limits)
}

#[test]
fn an_option_stands_before_or_behind_the_command(rt: HostRuntime) {
    let limits = (4, 8, 1_000_000, 10_000_000);
    for line in [
        "classify --cells=8",
        "classify --cells 8",
        "--cells 8 classify",
        "--cells=8 classify",
    ] {
        assert!(rt; classifies(&rt, rt.alloc(), line, limits), "{line}");
    }
}

#[test]
fn classify_without_options_has_the_standard_limits(rt: HostRuntime) {
    let limits = (4, 256, 1_000_000, 10_000_000);
    assert!(rt; classifies(&rt, rt.alloc(), "classify", limits));
}

#[test]
fn the_least_and_the_most_numbers_are_taken(rt: HostRuntime) {
    for (line, limits) in [
        ("classify --workers 1", (1, 256, 1_000_000, 10_000_000)),
        ("classify --workers=64", (64, 256, 1_000_000, 10_000_000)),
        ("classify --cells 1", (4, 1, 1_000_000, 10_000_000)),
        ("classify --cells=1024", (4, 1_024, 1_000_000, 10_000_000)),
        ("classify --max-contexts 1", (4, 256, 1, 10_000_000)),
        (
            "classify --max-contexts=4000000",
            (4, 256, 4_000_000, 10_000_000),
        ),
        ("classify --max-facts 1", (4, 256, 1_000_000, 1)),
        (
            "classify --max-facts=40000000",
            (4, 256, 1_000_000, 40_000_000),
        ),
    ] {
        assert!(rt; classifies(&rt, rt.alloc(), line, limits), "{line}");
    }
}

#[test]
fn all_options_stand_together(rt: HostRuntime) {
    let line = "--max-facts=7 --workers 2 classify --cells 3 --max-contexts=5";
    assert!(rt; classifies(&rt, rt.alloc(), line, (2, 3, 5, 7)));
}

/// Whether a line asks for the trial of this number under these limits.
fn tries(
    rt: &impl Abort,
    alloc: Global,
    line: &str,
    number: u32,
    limits: (u32, u32, u64, u64),
) -> bool {
    asks(rt, alloc, line, Command::Trial(number), limits)
}

#[test]
fn a_trial_has_a_number_and_the_same_options(rt: HostRuntime) {
    for (line, number, limits) in [
        ("trial 1", 1, (4, 256, 1_000_000, 10_000_000)),
        ("trial 20000", 20_000, (4, 256, 1_000_000, 10_000_000)),
        ("trial --cells 8 5", 5, (4, 8, 1_000_000, 10_000_000)),
        (
            "--workers=2 trial --cells=8 5 --max-facts 9",
            5,
            (2, 8, 1_000_000, 9),
        ),
    ] {
        assert!(rt; tries(&rt, rt.alloc(), line, number, limits), "{line}");
    }
}

/// Whether a line is outside the form.
fn is_outside(rt: &impl Abort, alloc: Global, line: &str) -> bool {
    answer(rt, alloc, line) == Err(AskFault::Usage)
}

#[test]
fn words_outside_the_form_are_told_as_usage(rt: HostRuntime) {
    for line in [
        "",
        " ",
        "classify ",
        " classify",
        "Classify",
        "classif",
        "classifyy",
        "unknown",
        "classify classify",
        "unknown classify",
        "classify unknown",
        "classify 5",
        "5",
        "trial",
        "trial 0",
        "trial 20001",
        "trial 05",
        "trial +5",
        "trial -5",
        "trial 5 5",
        "trial classify",
        "trial trial",
        "5 trial",
        "trial five",
        "trial ٥",
    ] {
        assert!(rt; is_outside(&rt, rt.alloc(), line), "{line}");
    }
}

#[test]
fn hyphens_that_name_no_option_are_told_as_usage(rt: HostRuntime) {
    for line in [
        "-- classify",
        "classify --",
        "--",
        "-",
        "classify -",
        "-h",
        "--help",
        "classify -h",
        "classify --help",
        "--version",
        "classify -V",
    ] {
        assert!(rt; is_outside(&rt, rt.alloc(), line), "{line}");
    }
}

#[test]
fn other_names_of_options_are_told_as_usage(rt: HostRuntime) {
    for line in [
        "classify -cells=8",
        "classify --cell=8",
        "classify --cell 8",
        "classify --Cells 8",
        "classify --cellss=8",
        "classify --max_facts=8",
        "classify --max-bytes=8",
        "classify cells=8",
        "classify =8",
        "classify --=8",
    ] {
        assert!(rt; is_outside(&rt, rt.alloc(), line), "{line}");
    }
}

#[test]
fn options_without_a_numeral_or_given_twice_are_told_as_usage(rt: HostRuntime) {
    for line in [
        "--cells",
        "classify --cells",
        "classify --cells=",
        "classify --cells ",
        "--cells classify",
        "--cells --workers 2 classify",
        "--cells= 8 classify",
        "--cells = 8 classify",
        "classify --cells 8 8",
        "classify --cells 8 --cells 8",
        "classify --cells=8 --cells=8",
        "--cells=8 classify --cells 9",
        "--workers 2 --workers=2 classify",
        "classify --max-contexts 5 --max-contexts 5",
        "classify --max-facts 5 --max-facts 5",
    ] {
        assert!(rt; is_outside(&rt, rt.alloc(), line), "{line}");
    }
}

#[test]
fn other_numerals_are_told_as_usage(rt: HostRuntime) {
    for line in [
        "classify --cells==8",
        "classify --cells=+8",
        "classify --workers=+4",
        "classify --workers=-4",
        "classify --workers -4",
        "classify --workers=04",
        "classify --workers 04",
        "classify --workers=4.0",
        "classify --workers=0x4",
        "classify --workers=4_",
        "classify --workers=٤",
        "classify --workers=４",
        "classify --workers=00000000004",
        "classify --max-facts=10000000000",
        "classify --max-facts=9999999999",
        "classify --max-facts=99999999999999999999",
    ] {
        assert!(rt; is_outside(&rt, rt.alloc(), line), "{line}");
    }
}

#[test]
fn numbers_out_of_range_are_told_as_usage(rt: HostRuntime) {
    for line in [
        "classify --workers 0",
        "classify --workers 65",
        "classify --cells 0",
        "classify --cells 1025",
        "classify --cells 4294967304",
        "classify --max-contexts 0",
        "classify --max-contexts 4000001",
        "classify --max-facts 0",
        "classify --max-facts 40000001",
    ] {
        assert!(rt; is_outside(&rt, rt.alloc(), line), "{line}");
    }
}

#[test]
fn no_words_are_outside_the_form(rt: HostRuntime) {
    let words: Vec<String> = Vec::new(rt.alloc());
    assert!(rt; ask(rt.alloc(), words.as_slice()) == Err(AskFault::Usage));
}
