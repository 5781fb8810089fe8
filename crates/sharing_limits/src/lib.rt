// The rules at their limits, by example.
#![tactic(auto)]

#[cfg(test)]
mod tests {
    use faults::fault::Fault;
    use faults::refusal::Refusal;
    use sharing::choice::Rule;
    use sharing::rule::Sharing;
    use sharing::signed::share_signed;
    use std::process::Abort;

    // What a rule shares has these parts.
    fn check_parts<const N: usize>(
        rt: &impl Abort,
        rule: Rule,
        amount: u64,
        weights: [u64; N],
        parts: [u64; N],
    ) {
        let mut shares = [9; N];
        assert!(rt; rule.share(amount, &weights, &mut shares).is_ok());
        assert!(rt; shares == parts);
    }

    // The parts are left as they were, and the fault is the one that every rule has.
    fn check_refused(
        rt: &impl Abort,
        rule: Rule,
        amount: u64,
        weights: &[u64],
        shares: &mut [u64],
    ) {
        let answer = rule.share(amount, weights, shares);
        assert!(rt; answer == Err(Fault::plain(Refusal::NotShareable)));
        assert!(rt; shares.iter().all(|share| *share == 9));
    }

    #[test]
    fn as_many_weights_as_there_may_be(rt: HostRuntime) {
        check_parts(&rt, Rule::Running, 64, [1; 32], [2; 32]);
    }

    #[test]
    fn one_weight_too_many(rt: HostRuntime) {
        check_refused(&rt, Rule::LargestRemainder, 64, &[1; 33], &mut [9; 33]);
    }

    #[test]
    fn no_weight_at_all(rt: HostRuntime) {
        check_refused(&rt, Rule::Running, 0, &[], &mut []);
    }

    #[test]
    fn the_largest_amount(rt: HostRuntime) {
        check_parts(
            &rt,
            Rule::Running,
            100_000_000_000_000_000,
            [1, 3],
            [25_000_000_000_000_000, 75_000_000_000_000_000],
        );
    }

    #[test]
    fn one_mil_too_much(rt: HostRuntime) {
        check_refused(
            &rt,
            Rule::Running,
            100_000_000_000_000_001,
            &[1, 3],
            &mut [9; 2],
        );
    }

    #[test]
    fn the_largest_sum_of_weights(rt: HostRuntime) {
        check_parts(
            &rt,
            Rule::LargestRemainder,
            2_000_000_000,
            [1_999_999_999, 1],
            [1_999_999_999, 1],
        );
    }

    #[test]
    fn weights_heavier_by_one(rt: HostRuntime) {
        check_refused(
            &rt,
            Rule::LargestRemainder,
            1,
            &[2_000_000_000, 1],
            &mut [9; 2],
        );
    }

    #[test]
    fn lists_of_different_length(rt: HostRuntime) {
        check_refused(&rt, Rule::Running, 1, &[1, 1], &mut [9; 3]);
    }

    #[test]
    fn a_negative_amount(rt: HostRuntime) {
        let mut shares = [9; 2];
        assert!(rt; share_signed(&Rule::Running, -500_000, &[1000, 2000], &mut shares).is_ok());
        assert!(rt; shares == [-166_666, -333_334]);
    }

    #[test]
    fn the_lowest_amount_of_all(rt: HostRuntime) {
        let mut shares = [9; 1];
        assert!(rt; share_signed(&Rule::Running, i64::MIN, &[1], &mut shares).is_err());
        assert!(rt; shares == [9]);
    }
}
