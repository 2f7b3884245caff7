use page_words::{block_with, no_words_law, words_in};

#[test]
fn a_word_has_eight_bytes_lowest_first(rt: HostRuntime) {
    let mut words = [0; 128];
    words[1] = 0x0102_0304_0506_0708;
    let block = block_with(&words);
    let expected = [0, 0, 8, 7, 6, 5, 4, 3, 2, 1, 0, 0];
    assert!(rt; block[6..18] == expected[..]);
    assert!(rt; words_in(&block) == words);
    no_words_law();
}
