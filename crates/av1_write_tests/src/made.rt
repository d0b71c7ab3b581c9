// Summaries of what numbers make. Their units were made by `scripts/make_units.py`, a generator written apart from this program, and written by
// rav1e's own calls behind a harness: `scripts/make_units.py N HARNESS` gives a row. That of 352288 was computed by a second harness too.

/// A row is the summary of the unit that its first number makes. An empty line ends it.
pub const MADE: &str = r#"make 0 24 23907
tile 0 8 57
trials 2 444 130

make 7 25 27418
tile 0 9 67
trials 2 527 130

make 8008 27 31285
tile 0 11 86
trials 2 673 544

make 64064 24 24384
tile 0 7 51
trials 2 397 569

make 65 74 25082
tile 0 57 455
trials 4 3628 3424

make 130000 124 35720
tile 0 107 849
trials 6 6778 6946

make 352288 1337 2989
tile 0 1318 10544
trials 60 84340 112910"#;
