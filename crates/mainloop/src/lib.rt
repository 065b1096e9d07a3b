// The main loop of the solver over two lent sheets: what does not change (`Net`) and what does (`Work`). It takes any times and loads that fit down to the
// deadline, and always ends (document 000 has the flow, document 003 the problem). It is what always works, and not quick: it runs where advice fails.
#![tactic(auto)]

pub mod crashing;
pub mod judging;
mod labelling;
mod lowering;
mod pushing;
