ghost use Rattle.ss_play.specs.Roles.{PlansHaveRoles};
ghost use Rattle.ss_play.specs.Schedules.{FailuresCanFire, SchedulesMayApply};

use ss_frames::plans_have_numbers;
use ss_plan::vertices_by_number;

/// The vertices of a plan are of the kinds of their roles, and have as many replicas.
pub(crate) fn plans_have_roles()
    ensures { PlansHaveRoles }
{
    vertices_by_number();
    plans_have_numbers();
}

/// Every act of a schedule for a job can be made on it.
pub fn schedules_may_apply()
    ensures { SchedulesMayApply }
{
    plans_have_roles();
}

/// Every failure that a file lists for a job can be made on it.
pub fn failures_can_fire()
    ensures { FailuresCanFire }
{
    plans_have_roles();
}
