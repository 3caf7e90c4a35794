// An example of each refusal of the path, and the allowed uses of a permit, run above NewReno.
#![tactic(auto)]

#[cfg(test)]
mod tests {
    use book::call::Step;
    use book::run::run;
    use new_reno::config::NewRenoConfig;
    use new_reno::new_reno::NewReno;
    use path::path::Path;
    use path::report::Report;
    use permits::{present_again, send_block};
    use refusals::Refusal;
    use std::test::Fail;
    use values::mtu::Mtu;
    use values::opening::Opening;
    use values::rtt::Rtt;

    fn opening(first: u64) -> Result<Opening, Refusal> {
        Opening::new(first, Mtu::new(1_200)?, Rtt::new(100_000_000)?, 0)
    }

    fn controller(window: u64) -> Result<NewReno, Refusal> {
        Ok(NewReno::new(NewRenoConfig::new(window, 0.5)?, 0, Mtu::new(1_200)?))
    }

    // Makes the calls on a path of its own; a permit that is left in the purse is withdrawn.
    fn play(window: u64, first: u64, steps: &mut [Step]) -> Result<Report, Refusal> {
        let controller = controller(window)?;
        let opening = opening(first)?;
        let mut purse = [None];
        let mut path = run(controller, opening, steps, &mut purse);
        let [left] = purse;
        if let Some(permit) = left {
            path.withdraw(permit).unwrap();
        }
        Ok(path.report())
    }

    // The number of the refusal, where the call was made and refused.
    fn refusal(step: &Step) -> Option<u8> {
        step.answer?.err().map(|refusal| refusal.number())
    }

    #[test]
    fn size_of_none_or_above_the_mtu(rt: HostRuntime) -> Result<(), Fail> {
        let mut steps = [
            Step::grant(0, 0),
            Step::grant(1_201, 0),
            Step::grant(1_200, 0),
        ];
        let _ = play(12_000, 0, &mut steps)?;
        assert_eq!(rt; refusal(&steps[0]), Some(2));
        assert_eq!(rt; refusal(&steps[1]), Some(2));
        assert_eq!(rt; refusal(&steps[2]), None);
        Ok(())
    }

    #[test]
    fn time_that_goes_back_or_is_too_late(rt: HostRuntime) -> Result<(), Fail> {
        let mut steps = [
            Step::end(6),
            Step::end(5),
            Step::grant(1_200, 0x4000_0000_0000_0000),
            Step::end(6),
        ];
        let _ = play(12_000, 0, &mut steps)?;
        assert_eq!(rt; refusal(&steps[0]), None);
        assert_eq!(rt; refusal(&steps[1]), Some(3));
        assert_eq!(rt; refusal(&steps[2]), Some(3));
        assert_eq!(rt; refusal(&steps[3]), None);
        Ok(())
    }

    #[test]
    fn last_number(rt: HostRuntime) -> Result<(), Fail> {
        let mut steps = [
            Step::grant(1_200, 0),
            Step::withdraw(),
            Step::grant(1_200, 0),
        ];
        let report = play(12_000, 0xffff_ffff_ffff, &mut steps)?;
        assert_eq!(rt; refusal(&steps[0]), None);
        assert_eq!(rt; refusal(&steps[2]), Some(5));
        assert_eq!(rt; report.handed_out, 1);
        assert_eq!(rt; report.counts.withdrawn, 1);
        Ok(())
    }

    #[test]
    fn cell_of_a_number_in_flight(rt: HostRuntime) -> Result<(), Fail> {
        let mut steps = [Step::withdraw(); 514];
        for step in steps.iter_mut().step_by(2) {
            *step = Step::grant(1_200, 0);
        }
        steps[1] = Step::transmit();
        let report = play(12_000, 0, &mut steps)?;
        assert_eq!(rt; refusal(&steps[510]), None);
        assert_eq!(rt; refusal(&steps[512]), Some(6));
        assert_eq!(rt; report.handed_out, 256);
        assert_eq!(rt; report.counts.in_flight, 1);
        Ok(())
    }

    #[test]
    fn window_that_is_full(rt: HostRuntime) -> Result<(), Fail> {
        let mut steps = [
            Step::grant(1_200, 0),
            Step::transmit(),
            Step::grant(1_200, 0),
            Step::transmit(),
            Step::grant(1_200, 0),
            Step::transmit(),
            Step::grant(1_200, 0),
            Step::transmit(),
            Step::grant(1, 0),
            Step::transmit(),
            Step::grant(1_200, 0),
            Step::grant(1_199, 0),
        ];
        let report = play(6_000, 0, &mut steps)?;
        assert_eq!(rt; refusal(&steps[8]), None);
        assert_eq!(rt; refusal(&steps[10]), Some(7));
        assert_eq!(rt; refusal(&steps[11]), None);
        assert_eq!(rt; report.counts.in_flight, 5);
        Ok(())
    }

    #[test]
    fn eleventh_of_a_burst(rt: HostRuntime) -> Result<(), Fail> {
        let mut steps = [Step::transmit(); 21];
        for step in steps.iter_mut().step_by(2) {
            *step = Step::grant(1_200, 0);
        }
        let report = play(240_000, 0, &mut steps)?;
        assert_eq!(rt; refusal(&steps[18]), None);
        assert_eq!(rt; refusal(&steps[20]), Some(8));
        assert_eq!(rt; steps[20].pace, Some(4_000_000));
        assert_eq!(rt; report.counts.in_flight, 10);
        Ok(())
    }

    #[test]
    fn number_that_is_not_in_flight(rt: HostRuntime) -> Result<(), Fail> {
        let mut steps = [
            Step::grant(1_200, 0),
            Step::ack(0, 0),
            Step::transmit(),
            Step::ack(0, 1),
            Step::ack(0, 1),
        ];
        let _ = play(12_000, 0, &mut steps)?;
        assert_eq!(rt; refusal(&steps[1]), Some(10));
        assert_eq!(rt; refusal(&steps[3]), None);
        assert_eq!(rt; refusal(&steps[4]), Some(10));
        Ok(())
    }

    #[test]
    fn permit_of_another_path(rt: HostRuntime) -> Result<(), Fail> {
        let mut own = Path::new(controller(12_000)?, opening(3)?);
        let mut other = Path::new(controller(12_000)?, opening(4)?);
        assert_eq!(rt; present_again(&mut own, &mut other, 1_200, 0)?, 3);
        assert_eq!(rt; own.report().counts.in_flight, 1);
        assert_eq!(rt; other.report().handed_out, 0);
        Ok(())
    }

    #[test]
    fn permit_that_is_withdrawn_before_a_fault_is_passed_up(rt: HostRuntime) -> Result<(), Fail> {
        let mut path = Path::new(controller(12_000)?, opening(0)?);
        match send_block(&mut path, b"block", 6, 0) {
            Ok(_) => return Err(Fail::new("a short block was sent")),
            Err(refusal) => assert_eq!(rt; refusal.number(), 1),
        }
        assert_eq!(rt; path.report().counts.withdrawn, 1);
        assert_eq!(rt; send_block(&mut path, b"block", 5, 0)?, 1);
        assert_eq!(rt; path.recount(), 5);
        Ok(())
    }
}
