// Laws of the definitions. Each is a function that does nothing: its contract is the law.

ghost use Rattle.pict_view.specs.Laws.{PartnersAreSeen, PlacesAreSeen, PlacesStep, ViewsStep};

/// Whatever keeps the processes of a view: at each place of a configuration that the view stands for, a ready process and
/// one of its parked partners, its lists become as `next_at` says exactly what the configuration becomes: label and trap
/// included, and wrong exactly where that is.
pub fn law_places_step()
    ensures { PlacesStep }
{}

/// Whatever keeps the processes of a view: where its lists step as `next_view` says, that is the oldest-first step of every
/// configuration that the view stands for, label and trap included; it is wrong, or finished, exactly where that
/// configuration's is.
pub fn law_views_step()
    ensures { ViewsStep }
{}

/// The partners of a ready process among the processes of a configuration are those in the list of its channel, in the same
/// order, of each view that stands for the configuration and keeps outputs and inputs apart.
pub fn law_partners_are_seen()
    ensures { PartnersAreSeen }
{}

/// The places of a view that keeps outputs and inputs apart are the places of each configuration that it stands for.
pub fn law_places_are_seen()
    ensures { PlacesAreSeen }
{}
