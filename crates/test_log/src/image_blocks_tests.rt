use base_types::{Entity, Rec};
use image_blocks::{
    body_block, closed_gate, header_block, is_open, open_gate, read_body, read_header,
    read_superblock, superblock,
};

#[test]
fn blocks_are_written_and_read_back(rt: HostRuntime) {
    let front = [
        0x47, 0x52, 0x41, 0x53, 0x53, 0x48, 0x4f, 0x50, 1, 0, 0, 0, 0, 16, 0, 0,
    ];
    assert!(rt; superblock(4096)[..16] == front[..]);
    assert!(rt; read_superblock(&superblock(4096), 4096) == Ok(4096));
    assert!(rt; read_superblock(&superblock(4096), 4095) == Err(12));
    assert!(rt; read_header(&header_block(3)) == Ok(3));
    assert!(rt; read_header(&header_block(0)) == Err(0));
    assert!(rt; is_open(&open_gate()) && !is_open(&closed_gate()));
    let mut stamp = [0; 64];
    stamp[0] = 2;
    stamp[41] = 1;
    let rec = Rec {
        entity: Entity::ATLAS,
        version: 2,
        stamp,
        length: 9,
        blocks: [2565, 0, 0, 0, 0, 0, 0, 0],
    };
    let mut body = body_block(&rec);
    assert!(rt; read_body(4096, &[], &body) == Ok(rec));
    assert!(rt; read_body(4096, &[rec], &body) == Err(8));
    body[1023] = 1;
    assert!(rt; read_body(4096, &[], &body) == Err(1023));
}
