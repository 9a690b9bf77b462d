//! `survey`: of a small plot, where its file is there, and words that are no survey.

use crate::tests::inspect::answer_over;
use std::test::Fail;

#[test]
fn a_survey_says_the_lines_of_its_plot_and_of_its_check(rt: HostRuntime) -> Result<(), Fail> {
    let alloc = rt.alloc();
    // by an independent program
    let words = ["survey", "12", "1", "200", "p", "s"];
    let (status, text) = answer_over(alloc, &words, b"any", &[])?;
    assert_eq!(rt;
        text.as_slice(),
        b"plotted 12 1389 869 489 268 144 81 81\nchecked 200 proofs 2 digest 03ce2980a415e9b56de72f532743e6464fef6be0a3ec6544de1872487b9cfedb\n".as_slice()
    );
    assert_eq!(rt; status, 0);
    let words = ["survey", "12", "1", "200", "toy", "s"];
    let (status, text) = answer_over(alloc, &words, b"any", &[])?;
    assert_eq!(rt; text.as_slice(), b"exists toy\n".as_slice());
    assert_eq!(rt; status, 5);
    Ok(())
}

#[test]
fn words_that_are_no_survey_answer_the_usage_line(rt: HostRuntime) -> Result<(), Fail> {
    let alloc = rt.alloc();
    let words: [&[&str]; 8] = [
        &["survey", "12", "1", "200", "p"],
        &["survey", "9", "1", "200", "p", "s"],
        &["survey", "12", "18446744073709551616", "200", "p", "s"],
        &["survey", "12", "1", "1000001", "p", "s"],
        &["survey", "12", "-1", "200", "p", "s"],
        &["survey", "12", "1", "200", "s.0", "s"],
        &["survey", "12", "1", "200", "p", ""],
        &["survey", "12", "1", "200", "p", "s", "s"],
    ];
    for words in words {
        let (status, text) = answer_over(alloc, words, b"any", &[])?;
        assert_eq!(rt;
            text.as_slice(),
            b"usage: pos_main COMMAND WORDS\n".as_slice()
        );
        assert_eq!(rt; status, 2);
    }
    Ok(())
}
