use ss_fail::Name;

#[test]
fn keeps_the_shortest_and_the_longest_name(rt: HostRuntime) {
    let shortest = Name::of(b"k");
    let longest = Name::of(b"abcdefghijklmnopqrstuvwxyz-01234");
    assert_eq!(rt; shortest.as_slice(), b"k".as_slice());
    assert_eq!(rt;
        longest.as_slice(),
        b"abcdefghijklmnopqrstuvwxyz-01234".as_slice()
    );
    assert_eq!(rt; Name::of(b"k"), shortest);
    assert_ne!(rt; Name::of(b"l"), shortest);
    assert_ne!(rt; Name::of(b"kk"), shortest);
}
