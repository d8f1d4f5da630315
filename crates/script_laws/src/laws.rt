//! Laws of scripts: each is the clause of a call that does nothing.
ghost use Rattle.script_laws.specs.CellRuns.{CellsGoOn};
ghost use Rattle.script_laws.specs.Runs.{MemoryIsFound, ScriptsAreRuns};
ghost use Rattle.script_laws.specs.Sound.{FaultsHaveServers, SoundFronts, SoundScripts};

use cell_places::law_packets_have_places;

/// What each list of lines tells, whatever the disks do, is what is seen of a run of the world: its cell is opened as a first world,
/// each event is one that the world allows and a script may bring, the cell's run is the fold over them, and the text tells
/// what is seen, in its order. Only where packets pass a limit, what is seen behind that is not told.
pub fn law_scripts_are_runs()
    ensures { ScriptsAreRuns }
{
    law_packets_have_places();
}

/// The run of a cell is one of the world when it is opened, and stays one in each line, and in each call that is asked under an id behind
/// all earlier ones: whatever the line, and whatever the disks do.
pub fn law_cells_go_on()
    ensures { CellsGoOn }
{
    law_packets_have_places();
}

/// Where no fault of a disk is told, and memory is found, no choice of what disks do matters: the same lines where every disk is sound leave and tell
/// the same, and end where these end.
pub fn law_sound_scripts()
    ensures { SoundScripts }
{}

/// Where no line ends a script whose disks are all sound, none ends a front of it of which no fault of a disk is told.
pub fn law_sound_fronts()
    ensures { SoundFronts }
{}

/// Lines that are run to their ends, and in which memory is found, bring no step of which a reply is seen that is for want of memory.
pub fn law_memory_is_found()
    ensures { MemoryIsFound }
{}

/// Each fault of a disk that is told, each stop and each opening that fails is one of a server of the cell.
pub fn law_faults_have_servers()
    ensures { FaultsHaveServers }
{
    law_scripts_are_runs();
}
