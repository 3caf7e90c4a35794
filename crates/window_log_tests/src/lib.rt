// What the report says of small and odd logs.
#![tactic(auto)]

#[cfg(test)]
mod tests {
    use bbr::bbr::Bbr;
    use bbr::config::BbrConfig;
    use congestion::controller::Controller;
    use cubic::config::CubicConfig;
    use cubic::cubic::Cubic;
    use draws::recorded::Recorded;
    use new_reno::config::NewRenoConfig;
    use new_reno::new_reno::NewReno;
    use std::process::Abort;
    use std::test::Fail;
    use values::mtu::Mtu;
    use values::rtt::Rtt;
    use window_log::report::replay;

    fn mtu() -> Mtu {
        Mtu::new(1_200).unwrap()
    }

    fn new_reno() -> NewReno {
        NewReno::new(NewRenoConfig::default(), 0, mtu())
    }

    fn cubic() -> Cubic {
        Cubic::new(CubicConfig::default(), 0, mtu())
    }

    fn bbr() -> Bbr<Recorded> {
        let draws = Recorded::new([0, 1, 2, 3, 4, 5, 6, 0]);
        Bbr::new(BbrConfig::default(), mtu(), draws)
    }

    fn reports<C: Controller + Drop>(
        rt: &(impl Abort + AllocGlobal),
        controller: C,
        log: &[u8],
        expected: &[u8],
    ) -> Result<(), Fail> {
        let initial_rtt = Rtt::new(100_000_000).unwrap();
        let report = replay(rt.alloc(), controller, initial_rtt, log)?;
        assert_eq!(rt; report.as_slice(), expected);
        Ok(())
    }

    #[test]
    fn an_empty_log(rt: HostRuntime) -> Result<(), Fail> {
        reports(&rt, new_reno(), b"", b"")
    }

    #[test]
    fn nothing_but_comments(rt: HostRuntime) -> Result<(), Fail> {
        reports(&rt, cubic(), b"# sent 1 1\r\n\n \t\n\r", b"")
    }

    // Persistent congestion cuts the threshold twice: 12,000 to 8,400 to 5,880.
    #[test]
    fn cubic_persistent_congestion(rt: HostRuntime) -> Result<(), Fail> {
        reports(
            &rt,
            cubic(),
            b"lost 1200 1000000 10000000 persistent\r\n",
            b"lost 1200 1000000 10000000 persistent: 2400 5880\n",
        )
    }

    // In the TCP-friendly region an acknowledgement is worth a datagram at most.
    #[test]
    fn cubic_tcp_friendly_region(rt: HostRuntime) -> Result<(), Fail> {
        reports(
            &rt,
            cubic(),
            b"lost 1200 1000000 10000000\nack 1200 60000000 110000000\nack 1200 960000000 1010000000",
            b"lost 1200 1000000 10000000: 8400 8400\nack 1200 60000000 110000000: 9600 8400\nack 1200 960000000 1010000000: 10800 8400\n",
        )
    }

    // Two acks 1 ms apart at a minimum RTT of 49 ms: 1,200,000 bytes a second, a product of 58,800. The first end probes
    // the minimum RTT, with three quarters of that.
    #[test]
    fn bbr_probes_the_round_trip_time(rt: HostRuntime) -> Result<(), Fail> {
        reports(
            &rt,
            bbr(),
            b"sent 1200 1000000\nsent 1200 1000000\nack 1200 1000000 50000000\nack 1200 1000000 51000000\nend 51000000\nmtu 1500\n",
            b"sent 1200 1000000: 240000 none\nsent 1200 1000000: 240000 none\nack 1200 1000000 50000000: 240000 none\nack 1200 1000000 51000000: 240000 none\nend 51000000: 44100 none\nmtu 1500: 44100 none\n",
        )
    }

    // 1,200 bytes in a nanosecond are 1.2 * 10^12 a second, and a product of 58,800,000,000 at 49 ms. At the second end, 15.4 s
    // later, the bandwidth times the microseconds passes 2^64 - 1 and stops there.
    #[test]
    fn bbr_goes_on_where_the_product_stops(rt: HostRuntime) -> Result<(), Fail> {
        reports(
            &rt,
            bbr(),
            b"sent 1200 1000000\nsent 1200 1000000\nack 1200 1000000 50000000\nack 1200 1000000 50000001\nend 50000001\nend 15422287001\n",
            b"sent 1200 1000000: 240000 none\nsent 1200 1000000: 240000 none\nack 1200 1000000 50000000: 240000 none\nack 1200 1000000 50000001: 240000 none\nend 50000001: 44100000000 none\nend 15422287001: 44100000000 none\n",
        )
    }

    #[test]
    fn bytes_that_are_no_text(rt: HostRuntime) -> Result<(), Fail> {
        reports(
            &rt,
            new_reno(),
            b"\xff\xfe\nsent 99999999999999999999 1\nack 1 2 3 late\nend x\n",
            b"\xff\xfe: no such event\nsent 99999999999999999999 1: SIZE is above 18446744073709551615\nack 1 2 3 late: no such flag\nend x: TIME is not a decimal number\n",
        )
    }
}
