// Laws of the definitions. Each is a function that does nothing: its contract is the law.

ghost use Rattle.pict_object.specs.Laws.{CoresHaveOneObject, ObjectsAreReadOnce, ObjectsHaveOneCore, TablesAreOne};
ghost use Rattle.pict_object.specs.Dressing.{StepsAreDressed, RunsAreDressed, WithoutPlaces, LabelsExtend};

/// From an object its labels and its process are read back.
pub fn law_objects_are_read_once()
    ensures { ObjectsAreReadOnce }
{}

/// Other numbers for labels, and other places, change no step.
pub fn law_steps_are_dressed()
    ensures { StepsAreDressed }
{}

/// Nor do they change a run, or what it prints.
pub fn law_runs_are_dressed()
    ensures { RunsAreDressed }
{}

/// A process without places is a dressed one.
pub fn law_without_places()
    ensures { WithoutPlaces }
{}

/// Numbers for the labels of one list of names among those of another keep apart, and can be made to keep all labels apart.
pub fn law_labels_extend()
    ensures { LabelsExtend }
{}

/// The same bytes are the object of one process, but for its places.
pub fn law_objects_have_one_core()
    ensures { ObjectsHaveOneCore }
{}

/// A process has one object, whatever its places.
pub fn law_cores_have_one_object()
    ensures { CoresHaveOneObject }
{}

/// A process has one table of labels.
pub fn law_tables_are_one()
    ensures { TablesAreOne }
{}
