//! What holds of all deployment files. The law stands as the contract of a function with an empty body.

ghost use Rattle.deployment.specs.Deployments.{IsOfOneDeployment};

/// Two deployments with one file are the same one: what is written is read back.
pub fn a_file_is_of_one_deployment()
    ensures { IsOfOneDeployment }
{}
