//! The fixed words of a certificate's lines.

ghost use Rattle.std.specs.Prelude.{◌≡◌};
ghost use Rattle.cert_text.specs.Texts.{title, stamped_title, scan_word, unit_word, scanner_word, none_line, points_word, scanners_word, sights_word, vote_word, smooth_word, cost_word, inside_word, flow_word, sink_word, end_line};

#[tactic(auto, unfolding(crate::specs::Texts::title))]
pub fn first_line() -> &'static [u8]
    ensures { result.now ≡ title }
{
    b"recon certificate 1\n"
}

#[tactic(auto, unfolding(crate::specs::Texts::stamped_title))]
pub fn stamped_first_line() -> &'static [u8]
    ensures { result.now ≡ stamped_title }
{
    b"recon certificate 2\n"
}

#[tactic(auto, unfolding(crate::specs::Texts::scan_word))]
pub fn scan() -> &'static [u8]
    ensures { result.now ≡ scan_word }
{
    b"scan "
}

#[tactic(auto, unfolding(crate::specs::Texts::unit_word))]
pub fn unit() -> &'static [u8]
    ensures { result.now ≡ unit_word }
{
    b"unit "
}

#[tactic(auto, unfolding(crate::specs::Texts::scanner_word))]
pub fn scanner() -> &'static [u8]
    ensures { result.now ≡ scanner_word }
{
    b"scanner "
}

#[tactic(auto, unfolding(crate::specs::Texts::none_line))]
pub fn no_place() -> &'static [u8]
    ensures { result.now ≡ none_line }
{
    b"none\n"
}

#[tactic(auto, unfolding(crate::specs::Texts::points_word))]
pub fn points() -> &'static [u8]
    ensures { result.now ≡ points_word }
{
    b"points "
}

#[tactic(auto, unfolding(crate::specs::Texts::scanners_word))]
pub fn scanners() -> &'static [u8]
    ensures { result.now ≡ scanners_word }
{
    b"scanners "
}

#[tactic(auto, unfolding(crate::specs::Texts::sights_word))]
pub fn sights() -> &'static [u8]
    ensures { result.now ≡ sights_word }
{
    b"sights "
}

#[tactic(auto, unfolding(crate::specs::Texts::vote_word))]
pub fn vote() -> &'static [u8]
    ensures { result.now ≡ vote_word }
{
    b"vote "
}

#[tactic(auto, unfolding(crate::specs::Texts::smooth_word))]
pub fn smooth() -> &'static [u8]
    ensures { result.now ≡ smooth_word }
{
    b"smooth "
}

#[tactic(auto, unfolding(crate::specs::Texts::cost_word))]
pub fn cost() -> &'static [u8]
    ensures { result.now ≡ cost_word }
{
    b"cost "
}

#[tactic(auto, unfolding(crate::specs::Texts::inside_word))]
pub fn inside() -> &'static [u8]
    ensures { result.now ≡ inside_word }
{
    b"inside "
}

#[tactic(auto, unfolding(crate::specs::Texts::flow_word))]
pub fn flow() -> &'static [u8]
    ensures { result.now ≡ flow_word }
{
    b"flow "
}

#[tactic(auto, unfolding(crate::specs::Texts::sink_word))]
pub fn sink() -> &'static [u8]
    ensures { result.now ≡ sink_word }
{
    b"sink "
}

#[tactic(auto, unfolding(crate::specs::Texts::end_line))]
pub fn end_mark() -> &'static [u8]
    ensures { result.now ≡ end_line }
{
    b"end\n"
}
