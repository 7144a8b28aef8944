//! The search for a certificate's schedule.

ghost use Rattle.std.specs.Prelude.{List, IfOk};
ghost use Rattle.certificate.specs.Valid.{IsSound, IsAttained};
ghost use Rattle.witness_search.specs.declared.waypoint.Waypoint.{Waypoint};
ghost use Rattle.witness_search.specs.Chains.{AreWaypoints};
ghost use Rattle.witness_search.specs.Trials.{IsFound};
ghost use Rattle.family_edges.specs.Tasks.{task_of};

use crate::chain::waypoints;
use crate::trial::first_trial;
use crate::waypoint::Waypoint;
use certificate::Certificate;
use family_edges::Task;
use family_graph::worked_of;
use std::alloc::AllocError;
use witness_replay::Schedule;

// The waypoints of a certificate whose conditions hold.
fn waypoints_of(task: &Task<'_>, certificate: &Certificate) -> Result<Vec<Waypoint>, AllocError>
    requires { IsSound (task_of task.now) certificate.now }
    ensures { IfOk result (λ points. AreWaypoints (task_of task.now) certificate.now points.items) }
{
    let _nodes = certificate.nodes();
    let family = worked_of(task, certificate)?;
    waypoints(task, certificate, &family)
}

/// A schedule whose run is as deep as the certificate's bound; all conditions but that on the schedule hold. It is that of the first of
/// eight trials with this depth; each takes the interrupts of the deepest chain when they are due. None exactly if no trial's depth is
/// the bound. Source: own.
pub fn search(task: &Task<'_>, certificate: &Certificate) -> Result<Option<Schedule>, AllocError>
    requires { IsSound (task_of task.now) certificate.now }
    ensures first { IfOk result (λ found. (points : List Waypoint) × AreWaypoints (task_of task.now) certificate.now points × IsFound (task_of task.now) points certificate.now.bound found) }
    ensures attained { IfOk result (IsAttained (task_of task.now) certificate.now.bound) }
{
    let points = waypoints_of(task, certificate)?;
    first_trial(task, &points, certificate.bound())
}
