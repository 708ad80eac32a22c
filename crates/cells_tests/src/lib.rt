// What the memories leave in the arrays that they are lent.
#![tactic(auto)]

#[cfg(test)]
mod tests {
    use cells::memory::Memory;
    use cells::refusal::Refusal;
    use cells::tags::{Tag, Tags};
    use cells::words::Words;

    #[test]
    fn tags(rt: HostRuntime) {
        let mut bytes = [9; 12];
        let tag = Tag {
            quality: 192,
            value: 0x0102_0304,
        };
        let mut memory = Tags::new(&mut bytes);
        assert_eq!(rt; memory.size(), 2);
        assert_eq!(rt; memory.write(1, tag), Ok(()));
        assert_eq!(rt; memory.read(1), Ok(tag));
        assert_eq!(rt; memory.read(2), Err(Refusal::Address));
        assert_eq!(rt; memory.write(2, tag), Err(Refusal::Address));
        assert_eq!(rt; bytes, [9, 9, 9, 9, 9, 192, 1, 2, 3, 4, 9, 9]);
    }

    #[test]
    fn words(rt: HostRuntime) {
        let mut cells = [9; 3];
        let mut memory = Words::new(&mut cells);
        assert_eq!(rt; memory.size(), 3);
        assert_eq!(rt; memory.write(1, 7), Ok(()));
        assert_eq!(rt; memory.read(1), Ok(7));
        assert_eq!(rt; memory.read(3), Err(Refusal::Address));
        assert_eq!(rt; memory.write(3, 7), Err(Refusal::Address));
        assert_eq!(rt; cells, [9, 7, 9]);
    }
}
