ghost use Rattle.rd_holdings.specs.RulesFor.{RulesAreInOrder, RulesAreThose, RulesOfBothAreInOrder};

/// Law: the rules for an accession are in order, and so are the takedowns of any accession before the rules
/// of any deed.
pub fn rules_are_in_order()
    ensures accession { RulesAreInOrder }
    ensures both { RulesOfBothAreInOrder }
{}

/// Law: a rule is among the rules for an accession exactly if the image of the accession stands,
/// the rule stands, and it is a takedown of that accession or a rule of the image's deed.
pub fn rules_are_those()
    ensures { RulesAreThose }
{}
