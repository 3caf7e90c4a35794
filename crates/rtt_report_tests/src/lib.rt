// What the report says of small and odd inputs.
#![tactic(auto)]

#[cfg(test)]
mod tests {
    use rtt_report::report::replay;
    use std::process::Abort;
    use std::test::Fail;
    use values::rtt::Rtt;

    fn reports(rt: &(impl Abort + AllocGlobal), input: &[u8], expected: &str) -> Result<(), Fail> {
        let initial_rtt = Rtt::new(100_000_000).unwrap();
        let report = replay(rt.alloc(), initial_rtt, input)?;
        assert_eq!(rt; report.as_str(), expected);
        Ok(())
    }

    #[test]
    fn an_empty_input(rt: HostRuntime) -> Result<(), Fail> {
        reports(&rt, b"", "taken 0 refused 0 unreadable 0\n")
    }

    #[test]
    fn a_missing_last_newline(rt: HostRuntime) -> Result<(), Fail> {
        reports(
            &rt,
            b"2000 0",
            "0 2000 1000 2000 1002000\ntaken 1 refused 0 unreadable 0\n",
        )
    }

    #[test]
    fn carriage_returns(rt: HostRuntime) -> Result<(), Fail> {
        reports(
            &rt,
            b"2000 0\r\n\r\n \t\r\n#\r\n\r",
            "0 2000 1000 2000 1002000\ntaken 1 refused 0 unreadable 0\n",
        )
    }

    #[test]
    fn bytes_that_are_no_text(rt: HostRuntime) -> Result<(), Fail> {
        reports(
            &rt,
            b"\xff\xfe 0\n\x00\n1 0\n",
            "line 1: RTT is not a decimal number\nline 2: no space between RTT and DELAY\n0 r1 estimator\ntaken 0 refused 1 unreadable 2\n",
        )
    }

    #[test]
    fn a_line_of_ten_thousand_digits(rt: HostRuntime) -> Result<(), Fail> {
        let mut input = vec![in rt.alloc(); b'9'; 10_000]?;
        reports(
            &rt,
            input.as_slice(),
            "line 1: no space between RTT and DELAY\ntaken 0 refused 0 unreadable 1\n",
        )?;
        input.extend_from_slice(b" 0\n2000 ")?;
        reports(
            &rt,
            input.as_slice(),
            "line 1: RTT is above 18446744073709551615\nline 2: DELAY is missing\ntaken 0 refused 0 unreadable 2\n",
        )
    }
}
