// The rule that holds for a change: of those that apply the most exact, its from side before its to side.
ghost use Rattle.std.specs.Prelude.{◌≡◌};
ghost use Rattle.transfer.specs.Choice.{applies, rank, read, chosen};

use crate::Ends;
use rules::Rule;

impl Ends {
    // Whether a rule is for these stops, or for their parents. Either side may be the parent, so no whole values are compared.
    fn applies(self, rule: Rule) -> bool
        ensures { result ≡ applies self rule }
    {
        (rule.from == self.from || rule.from == self.from_parent)
            && (rule.to == self.to || rule.to == self.to_parent)
    }

    // How exact a rule is: 2 for its from, 1 for its to, where that is the stop itself.
    fn rank(self, rule: Rule) -> u8
        ensures { result ≡ rank self rule }
    {
        2 * u8::from(rule.from == self.from) + u8::from(rule.to == self.to)
    }

    // The rule that holds once one more is read.
    pub fn read(self, best: Option<Rule>, rule: Rule) -> Option<Rule>
        ensures { result ≡ read self best rule }
    {
        if !self.applies(rule) {
            return best;
        }
        match best {
            Some(old) if self.rank(rule) < self.rank(old) => best,
            _ => Some(rule),
        }
    }

    // The rule that holds among these.
    pub fn choose(self, rules: &[Rule]) -> Option<Rule>
        ensures { result ≡ chosen self rules.now }
    {
        rules.iter().fold(None, |best, rule| self.read(best, *rule))
    }
}
