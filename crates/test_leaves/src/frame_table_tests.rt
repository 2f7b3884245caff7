use data_frames::Frames;
use std::process::Abort;
use std::test::Fail;

// Makes a page resident whose words are all this one.
fn place_filled(rt: &impl Abort, frames: &mut Frames, page: u8, word: u64) {
    let victim = frames.victim();
    assert!(rt; victim.is_none(), "a frame is empty for page {page}");
    let frame = frames.find(page);
    assert!(rt; frame.is_none(), "page {page} isn't resident");
    frames.place(page, &[word; 128]);
}

// Reads a word of a page that has to be resident.
fn read(rt: &impl Abort, frames: &mut Frames, page: u8, place: u8) -> u64 {
    let frame = frames.find(page);
    assert!(rt; frame.is_some() && place < 128, "page {page} is resident");
    frames.word(page, place)
}

// Makes a word of a page that has to be resident another.
fn set(rt: &impl Abort, frames: &mut Frames, page: u8, place: u8, word: u64) {
    let frame = frames.find(page);
    assert!(rt; frame.is_some() && place < 128, "page {page} is resident");
    frames.set(page, place, word);
}

// Takes the mark from a page that has to be resident.
fn clean(rt: &impl Abort, frames: &mut Frames, page: u8) {
    let frame = frames.find(page);
    assert!(rt; frame.is_some(), "page {page} is resident");
    frames.clean(page);
}

#[test]
fn one_to_256_frames_can_be_made(rt: HostRuntime) -> Result<(), Fail> {
    for &count in &[1, 2, 256] {
        let mut frames = Frames::new(rt.alloc(), count)?;
        assert!(rt; frames.frames() == count);
        assert!(rt; frames.victim() == None);
        assert!(rt; frames.find(255) == None);
    }
    Ok(())
}

// A word of a page that is removed, and whether the page was changed.
fn removed(frames: &mut Frames, page: u8, place: usize) -> Option<(u64, bool)> {
    let (words, changed) = frames.remove(page)?;
    Some((*words.get(place)?, changed))
}

// Two words of a page that has to be resident, and whether it was changed.
fn copied(rt: &impl Abort, frames: &Frames, page: u8) -> (u64, u64, bool) {
    let resident = frames.find(page);
    assert!(rt; resident.is_some(), "page {page} is resident");
    let (words, changed) = frames.copy_out(page);
    assert!(rt;
        frames.is_changed(page) == changed,
        "the mark of page {page}"
    );
    (words[126], words[127], changed)
}

#[test]
fn a_page_keeps_its_words_and_its_mark(rt: HostRuntime) -> Result<(), Fail> {
    let mut frames = Frames::new(rt.alloc(), 2)?;
    place_filled(&rt, &mut frames, 7, 70);
    place_filled(&rt, &mut frames, 255, 9);
    assert!(rt; (frames.find(7), frames.find(255)) == (Some(0), Some(1)));
    assert!(rt; read(&rt, &mut frames, 7, 127) == 70);
    assert!(rt; copied(&rt, &frames, 7) == (70, 70, false));
    set(&rt, &mut frames, 7, 127, 71);
    assert!(rt; copied(&rt, &frames, 7) == (70, 71, true));
    assert!(rt; !frames.is_changed(255) && !frames.is_changed(0));
    Ok(())
}

#[test]
fn a_page_that_is_removed_is_gone(rt: HostRuntime) -> Result<(), Fail> {
    let mut frames = Frames::new(rt.alloc(), 2)?;
    place_filled(&rt, &mut frames, 7, 70);
    place_filled(&rt, &mut frames, 255, 9);
    set(&rt, &mut frames, 7, 127, 71);
    clean(&rt, &mut frames, 7);
    assert!(rt; removed(&mut frames, 255, 0) == Some((9, false)));
    assert!(rt; removed(&mut frames, 255, 0) == None);
    assert!(rt; removed(&mut frames, 7, 127) == Some((71, false)));
    assert!(rt; frames.find(7) == None);
    place_filled(&rt, &mut frames, 7, 1);
    frames.clear();
    assert!(rt; (frames.find(7), frames.frames()) == (None, 2));
    Ok(())
}

#[test]
fn a_page_used_since_the_hand_passed_is_spared_once(rt: HostRuntime) -> Result<(), Fail> {
    let mut frames = Frames::new(rt.alloc(), 3)?;
    for &page in &[1, 2, 3] {
        place_filled(&rt, &mut frames, page, 0);
    }
    // all three were used as they came, so the hand goes round once and stops at the first
    assert!(rt; frames.victim() == Some(1));
    assert!(rt; frames.remove(1).is_some());
    place_filled(&rt, &mut frames, 4, 0);
    assert!(rt; read(&rt, &mut frames, 2, 0) == 0);
    // the hand spares 2, which was read since it passed, and stops at 3
    assert!(rt; frames.victim() == Some(3));
    assert!(rt; frames.remove(3).is_some());
    place_filled(&rt, &mut frames, 5, 0);
    // 4 and 5 were used as they came, and 2 was not used again
    assert!(rt; frames.victim() == Some(2));
    assert!(rt; read(&rt, &mut frames, 2, 0) == 0);
    // from 3's old frame on, where 5 is, all three are used: the hand goes round and stops where it began
    assert!(rt; read(&rt, &mut frames, 4, 0) == 0);
    assert!(rt; read(&rt, &mut frames, 5, 0) == 0);
    assert!(rt; frames.victim() == Some(5));
    Ok(())
}
