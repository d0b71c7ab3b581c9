// Worked words, from the descriptors of the AV1 specification.
use av1_codes::{golomb_word, quniform_word, refsubexp_word, signed_word, subexp_word};

#[test]
fn values_have_their_words(rt: HostRuntime) {
    // 00100: the number above it, after two zeros
    let word = golomb_word(3);
    assert_eq!(rt; (word.len, word.number), (5, 0b00100));
    // of five values, three have two bits
    let word = quniform_word(5, 2);
    assert_eq!(rt; (word.len, word.number), (2, 0b10));
    let word = quniform_word(5, 3);
    assert_eq!(rt; (word.len, word.number), (3, 0b110));
    // the only value of one has no bits
    let word = quniform_word(1, 0);
    assert_eq!(rt; (word.len, word.number), (0, 0));
    // 2 and 3 are the second pair
    let word = subexp_word(20, 1, 3);
    assert_eq!(rt; (word.len, word.number), (3, 0b101));
    // 5 is number 4 as seen from 3: third of the six values past the first pair
    let word = refsubexp_word(8, 1, 3, 5);
    assert_eq!(rt; (word.len, word.number, word.eighths()), (4, 0b1100, 32));
    let word = signed_word(-4, 4, 1, -1, 1);
    assert_eq!(rt; (word.len, word.number), (4, 0b1100));
}
