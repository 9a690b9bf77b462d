use super::*;

#[test]
fn points_of_pairs_in_either_order(rt: HostRuntime) {
    for ((a, b), point) in [((1, 0), 0), ((2, 1), 2), ((5, 3), 13), ((3, 5), 13)] {
        assert_eq!(rt; to_point(a, b), point, "of {a} and {b}");
    }
}

#[test]
fn pairs_of_points_next_to_each_other(rt: HostRuntime) {
    for (point, pair) in [
        (0, (1, 0)),
        (1, (2, 0)),
        (13, (5, 3)),
        (14, (5, 4)),
        (15, (6, 0)),
    ] {
        assert_eq!(rt; from_point(point), pair, "of {point}");
    }
}

#[test]
fn greatest_numbers_and_points(rt: HostRuntime) {
    let top = 9_223_372_036_854_775_807;
    assert_eq!(rt;
        to_point(top, top - 1),
        42_535_295_865_117_307_928_310_139_910_543_638_527
    );
    let pair = (6_521_908_912_666_391_106, 4_400_892_195_740_757_150);
    assert_eq!(rt;
        from_point(21_267_647_932_558_653_966_460_912_964_485_513_215),
        pair
    );
}

#[test]
fn laws_are_called(rt: HostRuntime) {
    points_are_places();
    points_keep_the_order();
    points_are_in_either_order();
    assert_eq!(rt; from_point(to_point(7, 4)), (7, 4));
}
