ghost use Rattle.chi_chan_laws.specs.Agreement.{OptionsAgree};

/// Where waiting lists have the offers of the instances that wait in a configuration, the options of such an instance by
/// the lists are its options by the semantics, in the same order.
pub fn options_law()
    ensures options { OptionsAgree }
{}
